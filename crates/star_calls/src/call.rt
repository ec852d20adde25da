// The scope of a call.
ghost use Rattle.std.specs.Prelude.{◌≡◌, ◌++◌, ℕ, IfOk, List, OnOk, Some, length};
ghost use Rattle.code_spec.specs.Allowed.{parameter_names};
ghost use Rattle.code_spec.specs.Code.{Name};
ghost use Rattle.object_arena.specs.Names.{Grows, OwnsAll, OwnsEnv, OwnsObjectRef, env_in, function_at, seen, values_of};
ghost use Rattle.star_resolve.specs.Frames.{added, boxed, unset_boxes};
ghost use Rattle.star_spec.specs.Binding.{scope_of_call};
ghost use Rattle.star_steps.specs.Meets.{state_in};
ghost use Rattle.star_tree.specs.Whole.{parameters_of};
ghost use Rattle.star_values.specs.Owns.{OwnsArguments};
ghost use Rattle.star_values.specs.View.{arguments_in};
ghost use Rattle.star_values.specs.declared.value.Sort.TheVariants as sort;
ghost use Rattle.value_spec.specs.Values as plain;
ghost use Rattle.star_calls.specs.Scope.{GivesScope, IsOf};

use crate::binding::bind;
use crate::own::own_boxes;
use crate::scopes::open_scope;
use object_arena::{Arena, Boxes, CallArgs, Ref, Values};
use sqlite_items::Items;
use star_resolve::Scope;
use star_tree::code::Param;
use ytt_base::fault::{Place, Stop};
use ytt_base::text::Memory;

/// The scope of a call of a function with these parameters, whose block binds these names besides: boxes for its parameters with
/// what arguments are bound to, boxes without values for the names, and the variables that stood around it. It refuses with
/// `ArgBind` at the place where no binding exists.
pub fn call_scope(
    arena: &mut Arena,
    params: &[Param],
    fresh: &Scope,
    function: Ref,
    args: CallArgs,
    at: Place,
) -> Result<Boxes, Stop>
    requires function { OwnsObjectRef (seen arena.old) sort.Func function }
    requires args { OwnsArguments (seen arena.old) args }
    ensures { (file n : ℕ) (names : List Name) (g : plain.Function) → fresh.now ≡ added (parameter_names (parameters_of file params.now)) names → function_at function.at (seen arena.old).store ≡ Some g → GivesScope (scope_of_call at (parameters_of file params.now) names g.defaults (arguments_in (seen arena.old).held args) g.env (state_in (seen arena.old) n)) result (seen arena.old) (seen arena.new) n }
{
    let (around, defaults) = parts_of(arena, function)?;
    let values = bind(arena, params, defaults.as_slice(), args, at)?;
    let own = own_boxes(arena, params, values.as_slice())?;
    Ok(scope_with(arena, fresh, own, around)?)
}

/// The variables that stood around a function, and the values of its defaults.
fn parts_of(arena: &Arena, function: Ref) -> Result<(Boxes, Values), Memory>
    requires { OwnsObjectRef (seen arena.now) sort.Func function }
    ensures is { IfOk result (λ parts. (g : plain.Function) → function_at function.at (seen arena.now).store ≡ Some g → IsOf (seen arena.now) g parts.0 parts.1) }
    ensures owns { IfOk result (λ parts. OwnsEnv (seen arena.now) parts.0 × OwnsAll (seen arena.now) parts.1) }
{
    let called = arena.function(function);
    let around = Items::from_slice(arena.alloc(), called.boxes.as_slice())?;
    let defaults = Items::from_slice(arena.alloc(), called.defaults.as_slice())?;
    Ok((around, defaults))
}

/// New boxes without values for these names, in front of the parameters' boxes and of those around.
fn scope_with(arena: &mut Arena, fresh: &Scope, own: Boxes, around: Boxes) -> Result<Boxes, Memory>
    requires own { OwnsEnv (seen arena.old) own }
    requires around { OwnsEnv (seen arena.old) around }
    ensures env { IfOk result (λ scope. env_in (seen arena.new).held scope ≡ boxed (length (seen arena.old).store) fresh.now (env_in (seen arena.old).held own) ++ env_in (seen arena.old).held around) }
    ensures owned { IfOk result (OwnsEnv (seen arena.new)) }
    ensures store { OnOk result ((seen arena.new).store ≡ (seen arena.old).store ++ unset_boxes (length fresh.now)) }
    ensures grows { Grows (seen arena.old) (seen arena.new) }
{
    let mut scope = open_scope(arena.alloc(), arena, fresh)?;
    scope.append(own)?;
    scope.append(around)?;
    Ok(scope)
}
