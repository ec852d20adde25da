// Parts that gather others.
ghost use Rattle.std.specs.Prelude.{◌≡◌, ◌++◌, ◌∷◌, [], OnOk};
ghost use Rattle.star_grammar.specs.Parts.{top, under, params_in};
ghost use Rattle.star_grammar.specs.Trees as spec;
ghost use Rattle.star_grammar.specs.declared.part.Part.TheVariants as part;
ghost use Rattle.star_grammar.specs.declared.table.Added.TheVariants as added;
ghost use Rattle.star_grammar.specs.declared.table.Opened.TheVariants as opened;

use crate::made::index;
use crate::parts::Parts;
use crate::values::{name_of, text_of, with};
use sqlite_items::Items;
use star_grammar::{Added, Opened, Part};
use star_params::Parameters;
use star_tree::code::{Clause, Entry, Expr, Loaded, Param};
use std::alloc::Global;
use ytt_base::text::{Memory, Text};

/// The name None, where a `return` that stands last is alone.
fn open_result(alloc: Global, parts: &mut Parts) -> Result<(), Memory>
    ensures { OnOk result (parts.new ≡ spec.opened_part opened.NoResult parts.old ∷ parts.old) }
{
    let line = parts.line();
    let name = Text::of(alloc, "None")?;
    parts.push_expr(alloc, line, Expr::Name(line, name))
}

/// An empty part that begins what follows.
pub fn open_part(alloc: Global, action: Opened, parts: &mut Parts) -> Result<(), Memory>
    ensures { OnOk result (parts.new ≡ spec.opened_part action parts.old ∷ parts.old) }
{
    match action {
        Opened::Exprs | Opened::EmptyTuple => parts.push(Part::Exprs(0, Items::new(alloc))),
        Opened::Entries => parts.push(Part::Entries(Items::new(alloc))),
        Opened::Clauses => parts.push(Part::Clauses(Items::new(alloc))),
        Opened::Params => parts.push(Part::Params(Parameters::new(alloc))),
        Opened::Loads => parts.push(Part::Loads(Items::new(alloc))),
        Opened::Missing => parts.push(Part::Missing),
        Opened::NoResult => open_result(alloc, parts),
    }
}

fn add_first(alloc: Global, parts: &mut Parts) -> Result<(), Memory>
    ensures { OnOk result (parts.new ≡ spec.added_parts added.First parts.old) }
{
    let line = parts.line();
    let expr = parts.pop_expr(alloc);
    parts.push(Part::Exprs(line, with(Items::new(alloc), expr)?))
}

fn add_item(alloc: Global, parts: &mut Parts) -> Result<(), Memory>
    ensures { OnOk result (parts.new ≡ spec.added_parts added.Item parts.old) }
{
    let expr = parts.pop_expr(alloc);
    let line = parts.line();
    let exprs = parts.pop_exprs(alloc);
    parts.push(Part::Exprs(line, with(exprs, expr)?))
}

fn add_list_for(alloc: Global, parts: &mut Parts) -> Result<(), Memory>
    ensures { OnOk result (parts.new ≡ spec.added_parts added.ListFor parts.old) }
{
    let clauses = parts.pop_clauses(alloc);
    let value = parts.pop_boxed(alloc)?;
    parts.drop_last();
    parts.push(Part::ListFor(value, clauses))
}

fn add_dict_for(alloc: Global, parts: &mut Parts) -> Result<(), Memory>
    ensures { OnOk result (parts.new ≡ spec.added_parts added.DictFor parts.old) }
{
    let clauses = parts.pop_clauses(alloc);
    let value = parts.pop_boxed(alloc)?;
    let key = parts.pop_boxed(alloc)?;
    parts.drop_last();
    parts.push(Part::DictFor(key, value, clauses))
}

fn add_entry(alloc: Global, parts: &mut Parts) -> Result<(), Memory>
    ensures { OnOk result (parts.new ≡ spec.added_parts added.Entry parts.old) }
{
    let value = parts.pop_boxed(alloc)?;
    let key = parts.pop_boxed(alloc)?;
    let entries = parts.pop_entries(alloc);
    parts.push(Part::Entries(with(entries, Entry::Pair(key, value))?))
}

fn add_for(alloc: Global, parts: &mut Parts) -> Result<(), Memory>
    ensures { OnOk result (parts.new ≡ spec.added_parts added.ForClause parts.old) }
{
    let members = parts.pop_boxed(alloc)?;
    let target = parts.pop_boxed(alloc)?;
    let clauses = parts.pop_clauses(alloc);
    parts.push(Part::Clauses(with(clauses, Clause::ForIn(target, members))?))
}

fn add_if(alloc: Global, parts: &mut Parts) -> Result<(), Memory>
    ensures { OnOk result (parts.new ≡ spec.added_parts added.IfClause parts.old) }
{
    let test = parts.pop_boxed(alloc)?;
    let clauses = parts.pop_clauses(alloc);
    parts.push(Part::Clauses(with(clauses, Clause::OnlyIf(test))?))
}

/// The parameters that stand last, and one more.
fn add_param(alloc: Global, parts: &mut Parts, param: Param) -> Result<(), Memory>
    ensures { OnOk result (parts.new ≡ part.Params (params_in (top parts.old) ++ param ∷ []) ∷ under parts.old) }
{
    let params = parts.pop_params(alloc);
    parts.push(Part::Params(params.with(alloc, param)?))
}

fn add_required(alloc: Global, parts: &mut Parts) -> Result<(), Memory>
    ensures { OnOk result (parts.new ≡ spec.added_parts added.Required parts.old) }
{
    let name = name_of(alloc, parts.pop_expr(alloc));
    add_param(alloc, parts, Param::Required(name))
}

fn add_default(alloc: Global, parts: &mut Parts) -> Result<(), Memory>
    ensures { OnOk result (parts.new ≡ spec.added_parts added.Default parts.old) }
{
    let default = parts.pop_boxed(alloc)?;
    let params = parts.pop_params(alloc);
    parts.push(Part::Params(params.with_default(default)?))
}

fn add_star(alloc: Global, parts: &mut Parts) -> Result<(), Memory>
    ensures { OnOk result (parts.new ≡ spec.added_parts added.Star parts.old) }
{
    let name = name_of(alloc, parts.pop_expr(alloc));
    add_param(alloc, parts, Param::Starred(name))
}

fn add_stars(alloc: Global, parts: &mut Parts) -> Result<(), Memory>
    ensures { OnOk result (parts.new ≡ spec.added_parts added.Stars parts.old) }
{
    let name = name_of(alloc, parts.pop_expr(alloc));
    add_param(alloc, parts, Param::DoubleStarred(name))
}

fn add_load(alloc: Global, parts: &mut Parts) -> Result<(), Memory>
    ensures { OnOk result (parts.new ≡ spec.added_parts added.Load parts.old) }
{
    let origin = text_of(alloc, parts.pop_expr(alloc));
    let bound = origin.copy()?;
    let loads = parts.pop_loads(alloc);
    parts.push(Part::Loads(with(loads, Loaded { bound, origin })?))
}

fn add_load_as(alloc: Global, parts: &mut Parts) -> Result<(), Memory>
    ensures { OnOk result (parts.new ≡ spec.added_parts added.LoadAs parts.old) }
{
    let origin = text_of(alloc, parts.pop_expr(alloc));
    let bound = name_of(alloc, parts.pop_expr(alloc));
    let loads = parts.pop_loads(alloc);
    parts.push(Part::Loads(with(loads, Loaded { bound, origin })?))
}

/// The last parts join the one that gathers their like.
pub fn add_part(alloc: Global, action: Added, parts: &mut Parts) -> Result<(), Memory>
    ensures { OnOk result (parts.new ≡ spec.added_parts action parts.old) }
{
    match action {
        Added::First => add_first(alloc, parts),
        Added::Item => add_item(alloc, parts),
        Added::EmptyList => Ok(()),
        Added::ListFor => add_list_for(alloc, parts),
        Added::DictFor => add_dict_for(alloc, parts),
        Added::Entry => add_entry(alloc, parts),
        Added::ForClause => add_for(alloc, parts),
        Added::IfClause => add_if(alloc, parts),
        Added::Required => add_required(alloc, parts),
        Added::Default => add_default(alloc, parts),
        Added::Star => add_star(alloc, parts),
        Added::BareStar => add_param(alloc, parts, Param::BareStar),
        Added::Stars => add_stars(alloc, parts),
        Added::Load => add_load(alloc, parts),
        Added::LoadAs => add_load_as(alloc, parts),
        Added::GroupIndex => index(alloc, parts),
    }
}
