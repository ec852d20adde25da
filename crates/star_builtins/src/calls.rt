// Calls of the language's own functions and methods.
ghost use Rattle.std.specs.Prelude.{◌≡◌, IfOk, option_map};
ghost use Rattle.builtin_spec.specs.Builtins.{own_function};
ghost use Rattle.builtin_spec.specs.Calls.{asked_row, own_method, own_row};
ghost use Rattle.object_arena.specs.Made.{Makes};
ghost use Rattle.star_steps.specs.Names.{Gives, Owns, OwnsAll, seen, state_in, value_of, values_of};
ghost use Rattle.star_values.specs.Owns.{OwnsArguments};
ghost use Rattle.star_values.specs.View.{View, arguments_in};
ghost use Rattle.star_values.specs.declared.value.Value.TheVariants as value;
ghost use Rattle.value_spec.specs.Values.{Arguments, builtin, native_value};
ghost use Rattle.ytt_base.specs.declared.fault.Place.{Place};
ghost use Rattle.star_builtins.specs.View.{OwnsBound, OwnsOwn, called, gives_of, taken_by};
ghost use Rattle.star_builtins.specs.Asked.{Asks, Yields, keyed_row, of_native, row_with_keys};

use crate::asked::{Asked, KeyedBuiltin, keyed_call, keyed_named};
use crate::dicts::apply_to_dict;
use crate::functions::apply;
use crate::lists::apply_to_list;
use crate::numbers::range;
use crate::pairs::{dict, update};
use crate::sequences::zip;
use crate::table::{
    Bound, Named, NamedOfDict, builtin_named, dict_method_named, list_method_named, parameters_of,
    was_given,
};
use object_arena::{Answerer, Arena, CallArgs, Ref, Shape, Value, Work};
use star_calls::bind_named;
use star_steps::{Given, refusal};
use star_text::text_method;
use ytt_base::fault::{FaultKind, Place, Stop};
use ytt_base::text::{Memory, Text};

/// What is called: what binds its arguments to parameters; what takes them as they are, a function or `update` of a dict; a method of a
/// text, by its name; or none of the language's own.
#[derive(Drop)]
pub(crate) enum Own {
    Bound(Bound),
    Range,
    Zip,
    Dict,
    Update(Ref),
    OfText(Text, Ref),
    Other,
}

/// The function of the language with this name.
pub fn own_function(arena: &mut Arena, name: &Text) -> Result<Value, Memory>
    ensures { Makes (native_value (builtin name.now)) result (seen arena.old) (seen arena.new) }
{
    let name = name.copy()?;
    arena.new_native(Answerer::Language, name, None)
}

/// What a native is.
fn own_of(arena: &Arena, native: Ref) -> Result<Own, Memory>
    requires { Owns (seen arena.now) (value.Native native) }
    ensures row { IfOk result (λ o. (p : Place) (args : Arguments) → called (seen arena.now) o p args ≡ own_row p (value_of (seen arena.now) (value.Native native)) args) }
    ensures owned { IfOk result (OwnsOwn (seen arena.now)) }
{
    match arena.shape(native) {
        Shape::Native(Answerer::Language, name, None) => Ok(function_of(name.as_str())),
        Shape::Native(Answerer::Language, name, Some(on)) => Ok(method_of(arena, name, on)?),
        Shape::Native(Answerer::Host, _, _) => Ok(Own::Other),
        Shape::Replacement(_) => Ok(Own::Other),
        _ => unreachable!(),
    }
}

/// The function of a name.
fn function_of(name: &str) -> Own
    ensures row { (a : View) (p : Place) (args : Arguments) → called a result p args ≡ own_function p name.now args }
    ensures owned { (a : View) → OwnsOwn a result }
{
    match builtin_named(name) {
        None => Own::Other,
        Some(Named::Bound(builtin)) => Own::Bound(Bound::Function(builtin)),
        Some(Named::Range) => Own::Range,
        Some(Named::Zip) => Own::Zip,
        Some(Named::Dict) => Own::Dict,
    }
}

/// The method of a name, of a value.
fn method_of(arena: &Arena, name: &Text, on: Value) -> Result<Own, Memory>
    requires { Owns (seen arena.now) on }
    ensures row { IfOk result (λ o. (p : Place) (args : Arguments) → called (seen arena.now) o p args ≡ own_method p name.now (value_of (seen arena.now) on) args) }
    ensures owned { IfOk result (OwnsOwn (seen arena.now)) }
{
    let _arena = arena;
    match on {
        Value::Text(text) => Ok(Own::OfText(name.copy()?, text)),
        Value::List(list) => match list_method_named(name.as_str()) {
            None => Ok(Own::Other),
            Some(method) => Ok(Own::Bound(Bound::OfList(method, list))),
        },
        Value::Dict(dict) => match dict_method_named(name.as_str()) {
            None => Ok(Own::Other),
            Some(NamedOfDict::Bound(method)) => Ok(Own::Bound(Bound::OfDict(method, dict))),
            Some(NamedOfDict::Update) => Ok(Own::Update(dict)),
        },
        Value::None
        | Value::Bool(_)
        | Value::Int(_)
        | Value::Tuple(_)
        | Value::Range(_)
        | Value::Struct(_)
        | Value::Fragment(_)
        | Value::Func(_)
        | Value::Native(_)
        | Value::Module(_) => Ok(Own::Other),
    }
}

/// What a call of one of the language's own functions or methods gives, which may ask a function for keys; each refusal at the place:
/// `ArgBind` of arguments that don't fit, `ValueKind` of a value of another kind and of what is none of the language's own, and what the
/// function or the method itself refuses.
pub fn own_call(
    arena: &mut Arena,
    work: &mut Work,
    native: Ref,
    args: CallArgs,
    at: Place,
) -> Result<Asked, Stop>
    requires native { Owns (seen arena.old) (value.Native native) }
    requires args { OwnsArguments (seen arena.old) args }
    ensures row { Asks (of_native asked_row at arena.old native args) result arena.old arena.new work.old.steps work.new.steps }
    ensures depth { work.new.depth ≡ work.old.depth }
{
    match keyed_of(arena, native) {
        Some(which) => keyed_call(arena, &mut work.steps, which, args, at),
        None => {
            let value = plain_call(arena, work, native, args, at)?;
            Ok(Asked::Value(value))
        }
    }
}

/// The function that may ask for keys, if a native is one.
fn keyed_of(arena: &Arena, native: Ref) -> Option<KeyedBuiltin>
    requires { Owns (seen arena.now) (value.Native native) }
    ensures { option_map keyed_row result ≡ row_with_keys (value_of (seen arena.now) (value.Native native)) }
{
    match arena.shape(native) {
        Shape::Native(Answerer::Language, name, None) => keyed_named(name.as_str()),
        Shape::Native(Answerer::Language, _, Some(_)) => None,
        Shape::Native(Answerer::Host, _, _) => None,
        Shape::Replacement(_) => None,
        _ => unreachable!(),
    }
}

/// What a call gives that asks for no keys.
fn plain_call(arena: &mut Arena, work: &mut Work, native: Ref, args: CallArgs, at: Place) -> Given
    requires native { Owns (seen arena.old) (value.Native native) }
    requires args { OwnsArguments (seen arena.old) args }
    ensures row { Yields (of_native own_row at arena.old native args) result arena.old arena.new work.old.steps work.new.steps }
    ensures depth { work.new.depth ≡ work.old.depth }
{
    match own_of(arena, native)? {
        Own::Bound(bound) => call(arena, work, bound, args, at),
        Own::Range => range(arena, &args, at),
        Own::Zip => zip(arena, &mut work.steps, &args, at),
        Own::Dict => dict(arena, &mut work.steps, &args, at),
        Own::Update(object) => update(arena, &mut work.steps, object, &args, at),
        Own::OfText(name, text) => { text_method(arena, work, Value::Text(text), &name, args, at) }
        Own::Other => Err(refusal(arena, FaultKind::ValueKind, at)),
    }
}

/// What a call gives whose arguments are bound before: `ArgBind` where they don't fit.
fn call(arena: &mut Arena, work: &mut Work, bound: Bound, args: CallArgs, at: Place) -> Given
    requires bound { OwnsBound (seen arena.old) bound }
    requires args { OwnsArguments (seen arena.old) args }
    ensures row { Gives (taken_by bound at (arguments_in (seen arena.old).held args) (state_in (seen arena.old) work.old.steps)) result (seen arena.old) (seen arena.new) work.new.steps }
    ensures depth { work.new.depth ≡ work.old.depth }
{
    let takes = parameters_of(bound);
    let given = was_given(bound, &args);
    let values = bind_named(arena, takes.needed, takes.optional, args, at)?;
    called_with(arena, work, bound, given, values.as_slice(), at)
}

/// What is called gives this for the values of its parameters.
fn called_with(
    arena: &mut Arena,
    work: &mut Work,
    bound: Bound,
    given: bool,
    values: &[Value],
    at: Place,
) -> Given
    requires bound { OwnsBound (seen arena.old) bound }
    requires values { OwnsAll (seen arena.old) values.now }
    ensures row { Gives (gives_of bound given at (values_of (seen arena.old) values.now) (state_in (seen arena.old) work.old.steps)) result (seen arena.old) (seen arena.new) work.new.steps }
    ensures depth { work.new.depth ≡ work.old.depth }
{
    match bound {
        Bound::Function(builtin) => apply(arena, work, builtin, given, values, at),
        Bound::OfList(method, list) => {
            apply_to_list(arena, work, method, list, given, values, at)
        }
        Bound::OfDict(method, dict) => {
            apply_to_dict(arena, work, method, dict, given, values, at)
        }
    }
}
