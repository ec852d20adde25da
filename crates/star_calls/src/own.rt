// The boxes of parameters.
ghost use Rattle.std.specs.Prelude.{◌≡◌, ◌++◌, ◌∷◌, [], ℕ, IfOk, List, MatchOption, OnOk, Some, length};
ghost use Rattle.code_spec.specs.Allowed.{parameter_names};
ghost use Rattle.object_arena.specs.Names.{Grows, Owns, OwnsAll, OwnsEnv, env_in, of_box, seen, value_of, values_of, with_object};
ghost use Rattle.star_spec.specs.Binding.{boxes_for};
ghost use Rattle.star_steps.specs.Meets.{state_in};
ghost use Rattle.star_tree.specs.Whole.{Parameter, parameter_of, parameters_from, parameters_of};
ghost use Rattle.star_values.specs.Objects.{variable_in};
ghost use Rattle.star_values.specs.Owns.{OwnsVariable};
ghost use Rattle.star_calls.specs.Scope.{GivesScope};

use crate::scopes::named_box;
use object_arena::{Arena, Boxes, NamedBox, Value};
use sqlite_items::Items;
use star_tree::code::Param;
use ytt_base::fault::Stop;
use ytt_base::text::{Memory, Text};

/// A new box for the name of each parameter, with its value, in their order.
pub(crate) fn own_boxes(
    arena: &mut Arena,
    params: &[Param],
    values: &[Value],
) -> Result<Boxes, Stop>
    requires { OwnsAll (seen arena.old) values.now }
    ensures { (file n : ℕ) → GivesScope (boxes_for (parameter_names (parameters_of file params.now)) (values_of (seen arena.old) values.now) (state_in (seen arena.old) n)) result (seen arena.old) (seen arena.new) n }
{
    let mut made = Items::new(arena.alloc());
    let mut left = params;
    let mut rest = values;
    while let Some((value, after)) = rest.split_first() {
        match next_named(left) {
            None => return Ok(made),
            Some((name, more)) => {
                put_box(arena, &mut made, name.as_str(), *value)?;
                left = more;
                rest = after;
            }
        }
    }
    Ok(made)
}

/// Puts a new box with this value, for a name, behind those that were made.
fn put_box(arena: &mut Arena, made: &mut Boxes, name: &str, value: Value) -> Result<(), Memory>
    requires made { OwnsEnv (seen arena.old) made.old }
    requires value { Owns (seen arena.old) value }
    ensures made { OnOk result (env_in (seen arena.new).held made.new ≡ env_in (seen arena.old).held made.old ++ (name.now, length (seen arena.old).store) ∷ []) }
    ensures owned { OnOk result (OwnsEnv (seen arena.new) made.new) }
    ensures store { OnOk result ((seen arena.new).store ≡ with_object (of_box (Some (value_of (seen arena.old) value))) (seen arena.old).store) }
    ensures grows { Grows (seen arena.old) (seen arena.new) }
{
    let named = filled_box(arena, name, value)?;
    made.push(named)?;
    Ok(())
}

/// A new box with this value, for a name.
fn filled_box(arena: &mut Arena, name: &str, value: Value) -> Result<NamedBox, Memory>
    requires { Owns (seen arena.old) value }
    ensures name { IfOk result (λ b. variable_in (seen arena.new).held b ≡ (name.now, length (seen arena.old).store)) }
    ensures owned { IfOk result (OwnsVariable (seen arena.new)) }
    ensures store { OnOk result ((seen arena.new).store ≡ with_object (of_box (Some (value_of (seen arena.old) value))) (seen arena.old).store) }
    ensures grows { Grows (seen arena.old) (seen arena.new) }
{
    let named = named_box(arena.alloc(), arena, name)?;
    arena.set_box(named.at, value);
    Ok(named)
}

/// The name of the first parameter that has one, and the parameters behind it.
fn next_named(params: &[Param]) -> Option<(&Text, &[Param])>
    ensures { MatchOption result ((file : ℕ) → parameter_names (parameters_of file params.now) ≡ []) (λ next. (file : ℕ) → parameter_names (parameters_of file params.now) ≡ next.0.now ∷ parameter_names (parameters_of file next.1.now)) }
{
    let mut rest = params;
    while let Some((param, more)) = rest.split_first() {
        if let Some(name) = name_of(param) {
            return Some((name, more));
        }
        rest = more;
    }
    None
}

/// The name of a parameter. A star alone has none.
fn name_of(param: &Param) -> Option<&Text>
    ensures { MatchOption result ((file : ℕ) (qs : List Parameter) → parameter_names (parameters_from (parameter_of file param.now ∷ qs)) ≡ parameter_names (parameters_from qs)) (λ name. (file : ℕ) (qs : List Parameter) → parameter_names (parameters_from (parameter_of file param.now ∷ qs)) ≡ name.now ∷ parameter_names (parameters_from qs)) }
{
    match param {
        Param::Required(name) => Some(name),
        Param::Defaulted(name, _) => Some(name),
        Param::BareStar => None,
        Param::Starred(name) => Some(name),
        Param::DoubleStarred(name) => Some(name),
    }
}
