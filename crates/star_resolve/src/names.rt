// The names that targets, clauses and parameters bind.
ghost use Rattle.std.specs.Prelude.{◌≡◌, ◌++◌, ℕ, ◌∷◌, [], IfOk, OnOk};
ghost use Rattle.code_spec.specs.Names.{clauses_names, loaded_names, target_names, targets_names};
ghost use Rattle.code_spec.specs.Allowed.{parameter_names};
ghost use Rattle.star_tree.specs.Listed.{clauses_of};
ghost use Rattle.star_tree.specs.Whole.{expr_of, exprs_of, loaded_names_of, parameters_of};

use sqlite_items::Items;
use star_tree::code::{Clause, Expr, Loaded, Param, Params};
use std::alloc::Global;
use ytt_base::text::{Memory, Text, Texts};

/// Puts a name behind the names.
fn put(name: &Text, names: &mut Texts) -> Result<(), Memory>
    ensures { OnOk result (names.new ≡ names.old ++ name.now ∷ []) }
{
    names.push(name.copy()?)?;
    Ok(())
}

/// Puts the names that a target binds behind the names.
#[cycle(targets)]
pub fn put_target_names(target: &Expr, names: &mut Texts) -> Result<(), Memory>
    ensures { (file : ℕ) → OnOk result (names.new ≡ names.old ++ target_names (expr_of file target.now)) }
{
    match target {
        Expr::Name(_, name) => put(name, names),
        Expr::List(_, members) => put_targets(members, names),
        Expr::Tuple(_, members) => put_targets(members, names),
        _ => Ok(()),
    }
}

#[cycle(targets)]
fn put_targets(targets: &Items<Expr>, names: &mut Texts) -> Result<(), Memory>
    ensures { (file : ℕ) → OnOk result (names.new ≡ names.old ++ targets_names (exprs_of file targets.now)) }
{
    for target in targets.as_slice() {
        put_target_names(target, names)?;
    }
    Ok(())
}

/// Puts the names that a clause binds behind the names.
fn put_clause(clause: &Clause, names: &mut Texts) -> Result<(), Memory>
    ensures { (file : ℕ) → OnOk result (names.new ≡ names.old ++ clauses_names (clauses_of file (clause.now ∷ []))) }
{
    match clause {
        Clause::ForIn(target, _) => put_target_names(target.get(), names),
        Clause::OnlyIf(_) => Ok(()),
    }
}

/// The names that the clauses of a comprehension bind.
pub fn clause_names(alloc: Global, clauses: &Items<Clause>) -> Result<Texts, Memory>
    ensures { (file : ℕ) → IfOk result (λ names. names ≡ clauses_names (clauses_of file clauses.now)) }
{
    let mut names = Items::new(alloc);
    for clause in clauses.as_slice() {
        put_clause(clause, &mut names)?;
    }
    Ok(names)
}

/// Puts the name of a parameter, if it has one, behind the names.
fn put_parameter(param: &Param, names: &mut Texts) -> Result<(), Memory>
    ensures { (file : ℕ) → OnOk result (names.new ≡ names.old ++ parameter_names (parameters_of file (param.now ∷ []))) }
{
    match param {
        Param::Required(name) => put(name, names),
        Param::Defaulted(name, _) => put(name, names),
        Param::BareStar => Ok(()),
        Param::Starred(name) => put(name, names),
        Param::DoubleStarred(name) => put(name, names),
    }
}

/// The names of parameters.
pub fn parameter_names(alloc: Global, params: &Params) -> Result<Texts, Memory>
    ensures { (file : ℕ) → IfOk result (λ names. names ≡ parameter_names (parameters_of file params.now)) }
{
    let mut names = Items::new(alloc);
    for param in params.as_slice() {
        put_parameter(param, &mut names)?;
    }
    Ok(names)
}

/// The names that a load statement binds.
pub(crate) fn of_loaded(alloc: Global, loaded: &Items<Loaded>) -> Result<Texts, Memory>
    ensures { IfOk result (λ names. names ≡ loaded_names (loaded_names_of loaded.now)) }
{
    let mut names = Items::new(alloc);
    for each in loaded.as_slice() {
        put(&each.bound, &mut names)?;
    }
    Ok(names)
}
