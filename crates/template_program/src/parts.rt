// Instructions put behind others, with the numbers of their functions: parts of nodes, statements, the heads of
// blocks. `next` is the next number.
ghost use Rattle.std.specs.Prelude.{◌≡◌, ◌∷◌, OnOk, option_map, ℕ};
ghost use Rattle.code_spec.specs.Program.{Instruction, begin_def, begin_elif, begin_for, begin_if};
ghost use Rattle.star_tree.specs.View.{item_kind_of};
ghost use Rattle.star_tree.specs.Whole.{expr_of, instruction_of, parameters_of};
ghost use Rattle.template_tree.specs.View.{code_of, notes_of};
ghost use Rattle.template_program.specs.Emits.{Emits, EmitsOne, Numbered};
ghost use Rattle.template_spec.specs.Compiled.{item_code, notes_code};
ghost use Rattle.ytt_base.specs.Outcomes.{place_at};

use sqlite_items::{Boxed, Items};
use star_number::{number_exprs, number_owned, number_params, number_simple, take};
use star_tree::ItemKind;
use star_tree::code::{Expr, NodeOp, Params, Stmt};
use std::alloc::Global;
use template_tree::TNotes;
use ytt_base::fault::Place;
use ytt_base::text::{Memory, Text};

/// Puts an instruction, which has its numbers, behind the others.
pub(crate) fn put(code: &mut Items<Stmt>, stmt: Stmt) -> Result<(), Memory>
    ensures { (file first next : ℕ) (i : Instruction) → Numbered file stmt first next i → OnOk result (EmitsOne file code.old code.new first next i) }
{
    code.push(stmt)?;
    Ok(())
}

/// Puts the notes of a node behind the instructions.
pub(crate) fn put_notes(
    alloc: Global,
    file: u32,
    notes: &TNotes,
    next: &mut usize,
    code: &mut Items<Stmt>,
) -> Result<(), Memory>
    ensures { OnOk result (Emits file code.old code.new next.old next.new (notes_code (notes_of file notes.now))) }
{
    for note in notes.as_slice() {
        let place = Place {
            file,
            line: note.line,
        };
        let name = note.name.copy()?;
        let args = number_exprs(alloc, file, &note.args, next)?;
        put(code, Stmt::Node(NodeOp::Note(place, name, args)))?;
    }
    Ok(())
}

/// Puts a simple statement behind the instructions, and for what is none, one that does nothing.
pub(crate) fn put_simple(
    alloc: Global,
    file: u32,
    stmt: Stmt,
    next: &mut usize,
    code: &mut Items<Stmt>,
) -> Result<(), Memory>
    ensures { OnOk result (Emits file code.old code.new next.old next.new (item_code (code_of file (instruction_of file stmt)))) }
{
    let simple = number_simple(alloc, file, &stmt, next)?;
    put(code, simple)
}

/// Puts the head of an `if` block behind the instructions.
pub(crate) fn put_if(
    alloc: Global,
    file: u32,
    line: u32,
    test: Boxed<Expr>,
    next: &mut usize,
    code: &mut Items<Stmt>,
) -> Result<(), Memory>
    ensures { OnOk result (EmitsOne file code.old code.new next.old next.new (begin_if (place_at file line) (expr_of file test))) }
{
    let test = number_owned(alloc, file, test, next)?;
    put(code, Stmt::If(line, test))
}

/// Puts the head of an `elif` branch behind the instructions.
pub(crate) fn put_elif(
    alloc: Global,
    file: u32,
    line: u32,
    test: Boxed<Expr>,
    next: &mut usize,
    code: &mut Items<Stmt>,
) -> Result<(), Memory>
    ensures { OnOk result (EmitsOne file code.old code.new next.old next.new (begin_elif (place_at file line) (expr_of file test))) }
{
    let test = number_owned(alloc, file, test, next)?;
    put(code, Stmt::Elif(line, test))
}

/// Puts the head of a `for` block behind the instructions.
pub(crate) fn put_for(
    alloc: Global,
    file: u32,
    line: u32,
    target: Boxed<Expr>,
    members: Boxed<Expr>,
    next: &mut usize,
    code: &mut Items<Stmt>,
) -> Result<(), Memory>
    ensures { OnOk result (EmitsOne file code.old code.new next.old next.new (begin_for (place_at file line) (expr_of file target) (expr_of file members))) }
{
    let target = number_owned(alloc, file, target, next)?;
    let members = number_owned(alloc, file, members, next)?;
    put(code, Stmt::For(line, target, members))
}

/// Puts the head of a `def` block behind the instructions. The function's own number comes before those in its
/// parameters. One that builds a fragment says of which items.
pub(crate) fn put_def(
    alloc: Global,
    file: u32,
    line: u32,
    name: Text,
    params: Params,
    fragment: Option<ItemKind>,
    next: &mut usize,
    code: &mut Items<Stmt>,
) -> Result<(), Memory>
    ensures { OnOk result (EmitsOne file code.old code.new next.old next.new (begin_def (place_at file line) 0 (option_map item_kind_of fragment) name (parameters_of file params))) }
{
    let number = take(next)?;
    let numbered = number_params(alloc, file, &params, next)?;
    put(code, Stmt::Def(line, number, fragment, name, numbered))
}
