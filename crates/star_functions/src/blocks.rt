// The functions of blocks.
ghost use Rattle.std.specs.Prelude.{◌≡◌, ◌++◌, ℕ, OnOk};
ghost use Rattle.star_blocks.specs.Nested.{arms_of, op_of, ops_of, statement_of};
ghost use Rattle.star_functions.specs.Numbered.{arms_functions, expr_functions, op_functions, ops_functions, part_functions};
ghost use Rattle.star_functions.specs.View.{all_of};
ghost use Rattle.star_tree.specs.Whole.{expr_of, part_of};

use crate::exprs::{find_in_expr, find_in_exprs, find_in_params};
use crate::function::{Found, FunctionCode, Numbered};
use star_blocks::{Arm, Op, Statement};
use star_tree::code::{Expr, NodeOp};
use ytt_base::text::Memory;

/// Puts the functions of a part of a node behind those that were found.
fn find_in_part<'p>(part: &'p NodeOp, found: &mut Found<'p>) -> Result<(), Memory>
    ensures { (file : ℕ) → OnOk result (all_of file found.new ≡ all_of file found.old ++ part_functions (part_of file part.now)) }
{
    match part {
        NodeOp::Note(_, _, args) => find_in_exprs(args, found),
        NodeOp::KeyFrom(_, key) => find_in_expr(key.get(), found),
        NodeOp::ValueFrom(_, value) => find_in_expr(value.get(), found),
        NodeOp::Start(_, _, _) => Ok(()),
        NodeOp::Key(_, _) => Ok(()),
        NodeOp::Value(_, _) => Ok(()),
        NodeOp::End(_) => Ok(()),
    }
}

/// Puts the functions of a target and of a value behind those that were found.
fn find_in_binding<'p>(
    target: &'p Expr,
    value: &'p Expr,
    found: &mut Found<'p>,
) -> Result<(), Memory>
    ensures { (file : ℕ) → OnOk result (all_of file found.new ≡ all_of file found.old ++ (expr_functions (expr_of file target.now) ++ expr_functions (expr_of file value.now))) }
{
    find_in_expr(target, found)?;
    find_in_expr(value, found)
}

/// Puts the functions of a part of a node, or of a statement, behind those that were found.
#[cycle(blocks)]
fn find_in_op<'p>(op: &'p Op, found: &mut Found<'p>) -> Result<(), Memory>
    ensures { (file : ℕ) → OnOk result (all_of file found.new ≡ all_of file found.old ++ op_functions (op_of file op.now)) }
{
    match op {
        Op::Node(part) => find_in_part(part, found),
        Op::Code(statement) => find_in_statement(statement, found),
    }
}

#[cycle(blocks)]
fn find_in_statement<'p>(statement: &'p Statement, found: &mut Found<'p>) -> Result<(), Memory>
    ensures { (file : ℕ) → OnOk result (all_of file found.new ≡ all_of file found.old ++ op_functions (statement_of file statement.now)) }
{
    match statement {
        Statement::Expr(_, e) => find_in_expr(e.get(), found),
        Statement::Return(_, e) => find_in_expr(e.get(), found),
        Statement::Assign(_, target, value) => find_in_binding(target.get(), value.get(), found),
        Statement::Augment(_, _, _, target, value) => {
            find_in_binding(target.get(), value.get(), found)
        }
        Statement::If(_, arms) => find_in_arms(arms.as_slice(), found),
        Statement::For(_, target, members, block) => {
            find_in_expr(target.get(), found)?;
            find_in_expr(members.get(), found)?;
            find_in_block(block.as_slice(), found)
        }
        Statement::Def(_, number, fragment, _, params, block) => {
            found.push(Numbered {
                number: *number,
                code: FunctionCode::Def(params, *fragment, block.as_slice()),
            })?;
            find_in_params(params, found)?;
            find_in_block(block.as_slice(), found)
        }
        Statement::Load(_, _, _) => Ok(()),
        Statement::Break(_) => Ok(()),
        Statement::Continue(_) => Ok(()),
        Statement::Pass(_) => Ok(()),
    }
}

/// Puts the functions of branches behind those that were found: nothing stands behind the block where no test holds.
#[cycle(blocks)]
fn find_in_arms<'p>(arms: &'p [Arm], found: &mut Found<'p>) -> Result<(), Memory>
    ensures { (file : ℕ) → OnOk result (all_of file found.new ≡ all_of file found.old ++ arms_functions (arms_of file arms.now)) }
{
    for arm in arms {
        match arm {
            Arm::Test(test, block) => {
                find_in_expr(test.get(), found)?;
                find_in_block(block.as_slice(), found)?;
            }
            Arm::Else(block) => return find_in_block(block.as_slice(), found),
        }
    }
    Ok(())
}

/// Puts the functions of a block behind those that were found.
#[cycle(blocks)]
pub(crate) fn find_in_block<'p>(block: &'p [Op], found: &mut Found<'p>) -> Result<(), Memory>
    ensures { (file : ℕ) → OnOk result (all_of file found.new ≡ all_of file found.old ++ ops_functions (ops_of file block.now)) }
{
    for op in block {
        find_in_op(op, found)?;
    }
    Ok(())
}
