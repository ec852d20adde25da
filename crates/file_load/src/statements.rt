// The load statements of a block.
ghost use Rattle.std.specs.Prelude.{◌≡◌};
ghost use Rattle.file_load.specs.Statements.{IsLoad, NextLoad, StatementLoad};

use star_blocks::{Op, Statement};
use star_tree::code::Loaded;
use ytt_base::fault::Place;
use ytt_base::text::Text;

/// A load statement: its place, its path as it is written, and its names.
#[derive(Clone, Copy)]
pub(crate) struct Load<'p> {
    pub place: Place,
    pub path: &'p Text,
    pub names: &'p [Loaded],
}

/// The load statement that a statement of a file is, if it is one.
fn load_in<'p>(file: u32, statement: &'p Statement) -> Option<Load<'p>>
    ensures { StatementLoad file statement.now result }
{
    match statement {
        Statement::Load(line, path, names) => Some(Load {
            place: Place { file, line: *line },
            path,
            names: names.as_slice(),
        }),
        Statement::Expr(_, _) => None,
        Statement::Assign(_, _, _) => None,
        Statement::Augment(_, _, _, _, _) => None,
        Statement::Return(_, _) => None,
        Statement::Break(_) => None,
        Statement::Continue(_) => None,
        Statement::Pass(_) => None,
        Statement::If(_, _) => None,
        Statement::For(_, _, _, _) => None,
        Statement::Def(_, _, _, _, _, _) => None,
    }
}

/// The load statement that a part of a block of a file is, if it is one.
fn load_of<'p>(file: u32, op: &'p Op) -> Option<Load<'p>>
    ensures { IsLoad file op.now result }
{
    match op {
        Op::Node(_) => None,
        Op::Code(statement) => load_in(file, statement),
    }
}

/// The first load statement of a block of a file, and what stands behind it, if there is one.
pub(crate) fn next_load<'p>(file: u32, block: &'p [Op]) -> Option<(Load<'p>, &'p [Op])>
    ensures { NextLoad file block.now result }
{
    let mut rest = block;
    while let Some((first, more)) = rest.split_first() {
        if let Some(load) = load_of(file, first) {
            return Some((load, more));
        }
        rest = more;
    }
    None
}
