// The trees that stand in parts.
ghost use Rattle.std.specs.Prelude.{◌≡◌};
ghost use Rattle.star_grammar.specs.Parts.{exprs_in, code_in};
ghost use Rattle.star_grammar.specs.Reading as spec;

use crate::values::no_items;
use sqlite_items::Items;
use star_grammar::Part;
use star_tree::code::{Args, Header, Stmt};
use std::alloc::Global;

/// The expressions that stand in a part.
pub fn args_of(alloc: Global, part: Part) -> Args
    ensures { result ≡ exprs_in part }
{
    match part {
        Part::Exprs(_, exprs) => exprs,
        other => no_items(alloc, other),
    }
}

/// The statements that stand in a part.
pub fn code_of(alloc: Global, part: Part) -> Items<Stmt>
    ensures { result ≡ code_in part }
{
    match part {
        Part::Code(code) => code,
        other => no_items(alloc, other),
    }
}

/// The end of a block, for a statement that is no head of one.
fn no_head(stmt: Stmt) -> Header
    ensures { result ≡ Header.End }
{
    drop(stmt);
    Header::End
}

fn header_of(stmt: Stmt) -> Header
    ensures { result ≡ spec.header_of stmt }
{
    match stmt {
        Stmt::If(_, test) => Header::If(test),
        Stmt::Elif(_, test) => Header::Elif(test),
        Stmt::Else(_) => Header::Else,
        Stmt::For(_, target, members) => Header::For(target, members),
        Stmt::Def(_, _, _, name, params) => Header::Def(name, params),
        other => no_head(other),
    }
}

/// The head or the end of a block that the last of some statements is.
pub fn header_in(code: Items<Stmt>) -> Header
    ensures { result ≡ spec.header_in code }
{
    let mut code = code;
    match code.pop() {
        Some(stmt) => header_of(stmt),
        None => Header::End,
    }
}
