// Statements between items.
ghost use Rattle.std.specs.Prelude.{◌≡◌, ℕ, [], ◌∷◌, ◌++◌, OnOk, Some};
ghost use Rattle.star_tree.specs.Whole.{instruction_of, instructions_of};
ghost use Rattle.template_pass.specs.Levels as levels;
ghost use Rattle.template_pass.specs.Levels.{Open};
ghost use Rattle.template_checks.specs.Held.{open_in, opens_of, returned_of, wrong_of};
ghost use Rattle.template_checks.specs.Walk.{instruction_fault};

use crate::blocks::{Block, Blocks};
use crate::wrong::{Wrong, unless};
use sqlite_items::Items;
use star_tree::code::Stmt;
use ytt_base::fault::{FaultKind, Place};
use ytt_base::text::Memory;

/// A `return`, and the `def` around it, which is known by the number of rows before it.
#[derive(Clone, Copy)]
pub struct Return {
    pub within: usize,
    pub place: Place,
}

/// Whether a block belongs to this level.
fn is_level_of(level: usize, block: Option<Block>) -> bool
    ensures { result ≡ levels.is_level_of level (open_in block) }
{
    match block {
        None => false,
        Some(block) => block.level == level,
    }
}

/// What is wrong with a statement of this level within these blocks.
fn statement_fault(file: u32, blocks: &Blocks, level: usize, stmt: &Stmt) -> Option<Wrong>
    ensures { wrong_of result ≡ instruction_fault (opens_of blocks.now) level (instruction_of file stmt.now) }
{
    match stmt {
        Stmt::Return(line, _) => unless(
            is_level_of(level, blocks.innermost_def()),
            FaultKind::CodeForm,
            file,
            *line,
        ),
        Stmt::Break(line) | Stmt::Continue(line) => unless(
            is_level_of(level, blocks.innermost_loop()),
            FaultKind::CodeForm,
            file,
            *line,
        ),
        Stmt::Load(line, _, _) => unless(blocks.has_none(), FaultKind::CodeForm, file, *line),
        Stmt::Expr(_, _)
        | Stmt::Assign(_, _, _)
        | Stmt::Augment(_, _, _, _, _)
        | Stmt::Pass(_)
        | Stmt::If(_, _)
        | Stmt::Elif(_, _)
        | Stmt::Else(_)
        | Stmt::For(_, _, _)
        | Stmt::Def(_, _, _, _, _)
        | Stmt::Node(_)
        | Stmt::Close(_) => None,
    }
}

/// What is wrong first with statements of this level within these blocks.
#[tactic(auto, using(crate::proofs::Returning::statements_split))]
pub fn statements_fault(file: u32, blocks: &Blocks, level: usize, stmts: &[Stmt]) -> Option<Wrong>
    ensures { wrong_of result ≡ levels.statements_fault (opens_of blocks.now) level (instructions_of file stmts.now) }
{
    for stmt in stmts {
        if let Some(wrong) = statement_fault(file, blocks, level, stmt) {
            return Some(wrong);
        }
    }
    None
}

/// Puts a statement that is a `return` of this `def` behind the others.
fn put_return(
    file: u32,
    within: usize,
    stmt: &Stmt,
    returned: &mut Items<Return>,
) -> Result<(), Memory>
    ensures { (b : Open) → b.before ≡ within → OnOk result (returned_of returned.new ≡ returned_of returned.old ++ levels.returned_in (Some b) (instruction_of file stmt.now ∷ [])) }
{
    if let Stmt::Return(line, _) = stmt {
        returned.push(Return {
            within,
            place: Place { file, line: *line },
        })?;
    }
    Ok(())
}

/// Puts the `return`s among statements, within the innermost `def` if there is one, behind the others.
#[tactic(auto, using(crate::proofs::Returning::returning))]
pub fn put_returns(
    file: u32,
    within: Option<Block>,
    stmts: &[Stmt],
    returned: &mut Items<Return>,
) -> Result<(), Memory>
    ensures { OnOk result (returned_of returned.new ≡ returned_of returned.old ++ levels.returned_in (open_in within) (instructions_of file stmts.now)) }
{
    if let Some(block) = within {
        for stmt in stmts {
            put_return(file, block.before, stmt, returned)?;
        }
    }
    Ok(())
}
