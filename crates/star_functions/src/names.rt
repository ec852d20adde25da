// The names that blocks bind.
ghost use Rattle.std.specs.Prelude.{◌≡◌, ◌++◌, ◌∷◌, [], ℕ, OnOk};
ghost use Rattle.code_spec.specs.Names.{loaded_names};
ghost use Rattle.code_spec.specs.Scopes.{arms_names, op_names, ops_names};
ghost use Rattle.star_blocks.specs.Nested.{arms_of, op_of, ops_of, statement_of};
ghost use Rattle.star_tree.specs.Whole.{loaded_names_of};

use sqlite_items::Items;
use star_blocks::{Arm, Op, Statement};
use star_resolve::put_target_names;
use star_tree::code::Loaded;
use ytt_base::text::{Memory, Text, Texts};

/// Puts a name behind the names.
fn put_name(name: &Text, names: &mut Texts) -> Result<(), Memory>
    ensures { OnOk result (names.new ≡ names.old ++ name.now ∷ []) }
{
    names.push(name.copy()?)?;
    Ok(())
}

/// Puts the names that a load statement binds behind the names.
fn put_loaded(loaded: &Items<Loaded>, names: &mut Texts) -> Result<(), Memory>
    ensures { OnOk result (names.new ≡ names.old ++ loaded_names (loaded_names_of loaded.now)) }
{
    for each in loaded.as_slice() {
        put_name(&each.bound, names)?;
    }
    Ok(())
}

/// Puts the names that a part of a node, or a statement, binds behind the names.
#[cycle(names)]
fn put_op_names(op: &Op, names: &mut Texts) -> Result<(), Memory>
    ensures { (file : ℕ) → OnOk result (names.new ≡ names.old ++ op_names (op_of file op.now)) }
{
    match op {
        Op::Node(_) => Ok(()),
        Op::Code(statement) => put_statement_names(statement, names),
    }
}

#[cycle(names)]
fn put_statement_names(statement: &Statement, names: &mut Texts) -> Result<(), Memory>
    ensures { (file : ℕ) → OnOk result (names.new ≡ names.old ++ op_names (statement_of file statement.now)) }
{
    match statement {
        Statement::Assign(_, target, _) => put_target_names(target.get(), names),
        Statement::Augment(_, _, _, target, _) => put_target_names(target.get(), names),
        Statement::Load(_, _, loaded) => put_loaded(loaded, names),
        Statement::If(_, arms) => put_arms_names(arms.as_slice(), names),
        Statement::For(_, target, _, block) => {
            put_target_names(target.get(), names)?;
            put_block_names(block.as_slice(), names)
        }
        Statement::Def(_, _, _, name, _, _) => put_name(name, names),
        Statement::Expr(_, _) => Ok(()),
        Statement::Return(_, _) => Ok(()),
        Statement::Break(_) => Ok(()),
        Statement::Continue(_) => Ok(()),
        Statement::Pass(_) => Ok(()),
    }
}

/// Puts the names that branches bind behind the names: nothing stands behind the block where no test holds.
#[cycle(names)]
fn put_arms_names(arms: &[Arm], names: &mut Texts) -> Result<(), Memory>
    ensures { (file : ℕ) → OnOk result (names.new ≡ names.old ++ arms_names (arms_of file arms.now)) }
{
    for arm in arms {
        match arm {
            Arm::Test(_, block) => put_block_names(block.as_slice(), names)?,
            Arm::Else(block) => return put_block_names(block.as_slice(), names),
        }
    }
    Ok(())
}

/// Puts the names that a block binds behind the names, as often as it binds them.
#[cycle(names)]
pub(crate) fn put_block_names(block: &[Op], names: &mut Texts) -> Result<(), Memory>
    ensures { (file : ℕ) → OnOk result (names.new ≡ names.old ++ ops_names (ops_of file block.now)) }
{
    for op in block {
        put_op_names(op, names)?;
    }
    Ok(())
}
