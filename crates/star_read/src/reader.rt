// The readers.
ghost use Rattle.std.specs.Prelude.{◌≡◌, [], true, OnOk};
ghost use Rattle.star_grammar.specs.declared.start.Start.TheVariants as start;
ghost use Rattle.star_grammar.specs.Parts.{expr_in, exprs_in};
ghost use Rattle.star_grammar.specs.Reading as spec;
ghost use Rattle.star_grammar.specs.Tokens.{ends, stop_of};
ghost use Rattle.star_read.specs.Answers.{HasParts, HasRead, head_in, program_in, refusal_at, told};
ghost use Rattle.star_read.specs.Passing.{IsEmpty, Passes};
ghost use Rattle.star_machine.specs.Pending.{begun};
ghost use Rattle.star_machine.specs.Turns.{value_of};
ghost use Rattle.star_machine.specs.Weights.{Weighed};

use crate::standing::{at_first, opens_too_many, stand_after};
use ll::{Shape, Shapes};
use sqlite_items::{Boxed, Items};
use star_build::{Blocks, Parts, args_of, boxed_of, code_of, header_in};
use star_grammar::{Kind, Part, Rule, Stand, Start, Symbol, Terminal, Token};
use star_machine::{Item, Machine, Pending, Weight, is_low, step};
use star_tables::kind_of;
use star_token::Tokens;
use star_tree::code::{Args, Expr, Header, Program};
use std::alloc::Global;
use ytt_base::fault::{Fault, FaultKind, Place, Stop};
use ytt_base::text::{Memory, Text};

/// How many items are still to be read at once in most lines of code.
const ROOM: usize = 32;

/// How many parts stand beside one another at once in most lines of code.
const PARTS: usize = 8;

fn rule_of(start: Start) -> Rule
    ensures { result ≡ spec.rule_of start }
{
    match start {
        Start::Expr => Rule::Expr,
        Start::Args => Rule::Args,
        Start::Line => Rule::Line,
        Start::Header => Rule::Header,
        Start::File => Rule::Top,
    }
}

/// The parts before a text, into which the parts of the text go.
fn begin_parts(alloc: Global, start: Start, parts: &mut Parts) -> Result<(), Memory>
    requires { parts.old ≡ [] }
    ensures { OnOk result (parts.new ≡ (spec.empty_of start).parts) }
{
    match start {
        Start::Expr => Ok(()),
        Start::Args => parts.push(Part::Exprs(0, Items::new(alloc))),
        Start::Line | Start::Header | Start::File => parts.push(Part::Code(Items::new(alloc))),
    }
}

fn begin_shapes(start: Start, shapes: &mut Shapes) -> Result<(), Memory>
    requires { shapes.old ≡ [] }
    ensures { OnOk result (shapes.new ≡ (spec.empty_of start).shapes) }
{
    match start {
        Start::Expr => Ok(()),
        _ => shapes.push(Shape {
            high: 0,
            target: matches!(start, Start::Args),
        }),
    }
}

/// Around a comment's code any block may be open.
fn begin_blocks(alloc: Global, start: Start) -> Blocks
    ensures { result ≡ (spec.empty_of start).blocks }
{
    match start {
        Start::File => Blocks::new(alloc),
        _ => Blocks::anywhere(alloc),
    }
}

/// A machine that has read nothing, and wants nothing. It takes no memory.
fn empty_machine(alloc: Global) -> Machine
    ensures { IsEmpty result }
{
    Machine {
        pending: Pending::new(alloc),
        parts: Parts::new(alloc),
        shapes: Shapes::new(alloc),
        blocks: Blocks::new(alloc),
    }
}

/// The machine before a text, which is still to be read whole.
fn begin(alloc: Global, start: Start, machine: &mut Machine) -> Result<(), Memory>
    requires { IsEmpty machine.old }
    ensures pending { OnOk result (machine.new.pending ≡ begun start) }
    ensures empty { OnOk result (value_of machine.new ≡ spec.empty_of start) }
{
    let pending = &mut machine.pending;
    pending.reserve(ROOM)?;
    machine.shapes.reserve(PARTS)?;
    pending.push(Item::Want(Symbol::Token(Terminal::Passed(Kind::TextEnd))))?;
    pending.push(Item::Want(Symbol::Rule(rule_of(start))))?;
    begin_parts(alloc, start, &mut machine.parts)?;
    begin_shapes(start, &mut machine.shapes)?;
    machine.blocks = begin_blocks(alloc, start);
    Ok(())
}

/// A fault on a line of a file.
fn fault(alloc: Global, kind: FaultKind, file: u32, line: u32) -> Stop
    ensures { result ≡ stop_of file kind line }
{
    Stop::Fault(Fault {
        kind,
        place: Some(Place { file, line }),
        detail: Text::new(alloc),
    })
}

/// What is told of a token with which no text goes on: that it opens one block more than may be
/// open, or that it has no place here.
fn refuse(alloc: Global, file: u32, stand: Stand, token: &Token) -> Stop
    ensures { result ≡ told file (refusal_at stand token.now) }
{
    if opens_too_many(stand, kind_of(&token.kind)) {
        fault(alloc, FaultKind::TooDeep, file, token.line)
    } else {
        fault(alloc, FaultKind::CodeForm, file, token.line)
    }
}

/// Reads one token. It gives where the next one stands, or why this one is refused.
fn read_token(
    alloc: Global,
    start: Start,
    file: u32,
    stand: Stand,
    token: &Token,
    machine: &mut Machine,
    weight: &mut Weight,
) -> Result<Stand, Stop>
    requires weighed { Weighed weight.old machine.old.pending machine.old.shapes }
    ensures passes { Passes start file stand token.now machine.old machine.new result }
    ensures weighed { OnOk result (Weighed weight.new machine.new.pending machine.new.shapes) }
{
    if !step(alloc, token, machine, weight)? {
        return Err(refuse(alloc, file, stand, token));
    }
    let next = stand_after(start, stand, kind_of(&token.kind), token.line);
    if !is_low(alloc, &machine.pending, &machine.shapes, weight)? {
        return Err(fault(alloc, FaultKind::TooDeep, file, next.line));
    }
    Ok(next)
}

/// Reads all tokens of a text.
fn read_tokens(
    alloc: Global,
    start: Start,
    tokens: &Tokens,
    machine: &mut Machine,
) -> Result<(), Stop>
    requires ended { ends tokens.now.tokens ≡ true }
    requires empty { IsEmpty machine.old }
    ensures { HasParts start tokens.now result machine.new.parts }
{
    begin(alloc, start, machine)?;
    let mut weight = Weight::new();
    let mut stand = at_first();
    let found = tokens.tokens.as_slice();
    for token in found {
        stand = read_token(
            alloc,
            start,
            tokens.file,
            stand,
            token,
            machine,
            &mut weight,
        )?;
    }
    match machine.pending.pop() {
        None => Ok(()),
        Some(_) => unreachable!(),
    }
}

/// The one part that tokens are.
fn read_part(alloc: Global, start: Start, tokens: &Tokens) -> Result<Part, Stop>
    requires ended { ends tokens.now.tokens ≡ true }
    ensures { HasRead start (λ part. part) tokens.now result }
{
    let mut machine = empty_machine(alloc);
    let read = read_tokens(alloc, start, tokens, &mut machine);
    let Machine { parts, .. } = machine;
    parts.last_if(read)
}

/// The expression that tokens are; several without brackets are a tuple.
///
/// The last token is the text's end. Of other tokens the least one is refused with which no text of the
/// grammar begins, or none of at most 100 levels: a fault without a detail, CodeForm on the token's line,
/// or TooDeep on the line where the outermost expression begins that holds it. Want of memory is
/// `Stop::Memory`.
pub fn read_expr(alloc: Global, tokens: &Tokens) -> Result<Boxed<Expr>, Stop>
    requires ended { ends tokens.now.tokens ≡ true }
    ensures { HasRead start.Expr expr_in tokens.now result }
{
    let part = read_part(alloc, Start::Expr, tokens)?;
    Ok(boxed_of(alloc, part)?)
}

/// The arguments that tokens are, refused as an expression's tokens are.
pub fn read_args(alloc: Global, tokens: &Tokens) -> Result<Args, Stop>
    requires ended { ends tokens.now.tokens ≡ true }
    ensures { HasRead start.Args exprs_in tokens.now result }
{
    let part = read_part(alloc, Start::Args, tokens)?;
    Ok(args_of(alloc, part))
}

/// The simple statements of a line, refused as an expression's tokens are.
pub fn read_simple(alloc: Global, tokens: &Tokens) -> Result<Program, Stop>
    requires ended { ends tokens.now.tokens ≡ true }
    ensures { HasRead start.Line (program_in tokens.now.file) tokens.now result }
{
    let part = read_part(alloc, Start::Line, tokens)?;
    Ok(Program {
        file: tokens.file,
        code: code_of(alloc, part),
    })
}

/// The head or the end of a block, refused as an expression's tokens are.
pub fn read_header(alloc: Global, tokens: &Tokens) -> Result<Header, Stop>
    requires ended { ends tokens.now.tokens ≡ true }
    ensures { HasRead start.Header head_in tokens.now result }
{
    let part = read_part(alloc, Start::Header, tokens)?;
    Ok(header_in(code_of(alloc, part)))
}

/// The statements of a file, refused as an expression's tokens are, or TooDeep on the line of a token
/// that opens one block more than 50.
pub fn read_file(alloc: Global, tokens: &Tokens) -> Result<Program, Stop>
    requires ended { ends tokens.now.tokens ≡ true }
    ensures { HasRead start.File (program_in tokens.now.file) tokens.now result }
{
    let part = read_part(alloc, Start::File, tokens)?;
    Ok(Program {
        file: tokens.file,
        code: code_of(alloc, part),
    })
}
