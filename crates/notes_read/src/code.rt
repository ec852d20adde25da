// The code of comments.
ghost use Rattle.std.specs.Prelude.{◌≡◌, true};
ghost use Rattle.star_grammar.specs.CodeReaders.{GivesCode};
ghost use Rattle.star_grammar.specs.Parts.{code_in};
ghost use Rattle.star_grammar.specs.Tokens.{ends};
ghost use Rattle.star_grammar.specs.declared.start.Start.TheVariants as start;
ghost use Rattle.star_read.specs.Answers.{HasRead};
ghost use Rattle.star_tree.specs.Whole as whole;

use sqlite_items::{Boxed, Items};
use star_read as read;
use star_token::{Tokens, tokens};
use star_tree::code::{Args, Expr, Header, Stmt};
use std::alloc::Global;
use ytt_base::fault::{Place, Stop};
use ytt_base::text::Text;

/// The expression that code is, whose first line is this place's.
pub fn read_expr(alloc: Global, code: &str, at: Place) -> Result<Boxed<Expr>, Stop>
    ensures { GivesCode (whole.expr_of at.file) result (λ r. r.expr at code.now) }
{
    let found = tokens(alloc, code, at.file, at.line)?;
    read::read_expr(alloc, &found)
}

/// The arguments that code is.
pub fn read_args(alloc: Global, code: &str, at: Place) -> Result<Args, Stop>
    ensures { GivesCode (whole.exprs_of at.file) result (λ r. r.args at code.now) }
{
    let found = tokens(alloc, code, at.file, at.line)?;
    read::read_args(alloc, &found)
}

/// The simple statements of a line.
fn read_line(alloc: Global, found: &Tokens) -> Result<Items<Stmt>, Stop>
    requires { ends found.now.tokens ≡ true }
    ensures { HasRead start.Line code_in found.now result }
{
    let program = read::read_simple(alloc, found)?;
    Ok(program.code)
}

/// The simple statements that code is.
pub fn read_simple(alloc: Global, code: &str, at: Place) -> Result<Items<Stmt>, Stop>
    ensures { GivesCode (whole.instructions_of at.file) result (λ r. r.simple at code.now) }
{
    let found = tokens(alloc, code, at.file, at.line)?;
    read_line(alloc, &found)
}

/// The head or the end of a block that a text is.
pub fn read_header(alloc: Global, text: &Text, at: Place) -> Result<Header, Stop>
    ensures { GivesCode (whole.header_of at.file) result (λ r. r.header at text.now) }
{
    let found = tokens(alloc, text.as_str(), at.file, at.line)?;
    read::read_header(alloc, &found)
}
