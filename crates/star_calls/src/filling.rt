// How one parameter gets its value.
ghost use Rattle.std.specs.Prelude.{◌≡◌, ℕ, false, List, [], ◌∷◌, MatchOption, OnOk};
ghost use Rattle.code_spec.specs.Code.{Expr, Name, double_starred_parameter};
ghost use Rattle.object_arena.specs.Names.{Grows, OwnsOption, option_in, seen, values_of};
ghost use Rattle.star_steps.specs.Meets.{state_in};
ghost use Rattle.star_tree.specs.Whole.{Parameter, bare_part, default_part, parameter_of, parameters_from, parameters_of, star_part};
ghost use Rattle.star_values.specs.View.{View};
ghost use Rattle.star_calls.specs.Left.{Fills, OwnsRest, completed, need_nothing, rest_of, taken};

use crate::left::{Left, put, take_for};
use crate::rests::dict_of;
use object_arena::Arena;
use sqlite_items::Items;
use star_steps::refusal;
use star_tree::code::Param;
use star_values::Value;
use ytt_base::fault::{FaultKind, Place, Stop};

/// A parameter got its value, or is refused.
type Filled = Result<(), Stop>;

/// Puts what a parameter gets behind the values, where these stand behind it.
pub(crate) fn fill(
    arena: &mut Arena,
    param: &Param,
    more: &[Param],
    left: &mut Left<'_>,
    at: Place,
) -> Filled
    requires { OwnsRest (seen arena.old) left.old }
    ensures fills { (file n : ℕ) → Fills result (completed at (parameters_of file (param.now ∷ more.now)) (rest_of (seen arena.old) left.old) (state_in (seen arena.old) n)) (completed at (parameters_of file more.now) (rest_of (seen arena.new) left.new) (state_in (seen arena.new) n)) (state_in (seen arena.new) n) }
    ensures owns { OnOk result (OwnsRest (seen arena.new) left.new) }
    ensures grows { Grows (seen arena.old) (seen arena.new) }
{
    match param {
        Param::Required(name) => fill_named(arena, name.as_str(), None, left, at),
        Param::Defaulted(name, _) => fill_defaulted(arena, name.as_str(), left, at),
        Param::BareStar => pass_star(arena, left, at),
        Param::Starred(_) => fill_starred(arena, left),
        Param::DoubleStarred(_) => fill_double_starred(arena, more, left, at),
    }
}

/// A parameter of a name, with this default if it has one.
pub(crate) fn fill_named(
    arena: &Arena,
    name: &str,
    default: Option<Value>,
    left: &mut Left<'_>,
    at: Place,
) -> Filled
    requires left { OwnsRest (seen arena.now) left.old }
    requires default { OwnsOption (seen arena.now) default }
    ensures fills { (n : ℕ) (qs : List Parameter) → Fills result (taken at name.now (option_in (seen arena.now).held default) (parameters_from qs) (rest_of (seen arena.now) left.old) (state_in (seen arena.now) n)) (completed at (parameters_from qs) (rest_of (seen arena.now) left.new) (state_in (seen arena.now) n)) (state_in (seen arena.now) n) }
    ensures owns { OnOk result (OwnsRest (seen arena.now) left.new) }
{
    match take_for(left, name, default) {
        None => Err(refusal(arena, FaultKind::ArgBind, at)),
        Some(value) => {
            put(left, value)?;
            Ok(())
        }
    }
}

/// A parameter of a name that has the first of the defaults that are left. Without one it is refused.
pub(crate) fn fill_defaulted(arena: &Arena, name: &str, left: &mut Left<'_>, at: Place) -> Filled
    requires { OwnsRest (seen arena.now) left.old }
    ensures fills { (n : ℕ) (qs : List Parameter) (e : Expr) → Fills result (completed at (parameters_from (default_part name.now e ∷ qs)) (rest_of (seen arena.now) left.old) (state_in (seen arena.now) n)) (completed at (parameters_from qs) (rest_of (seen arena.now) left.new) (state_in (seen arena.now) n)) (state_in (seen arena.now) n) }
    ensures owns { OnOk result (OwnsRest (seen arena.now) left.new) }
{
    match left.defaults.split_first() {
        None => Err(refusal(arena, FaultKind::ArgBind, at)),
        Some((first, more)) => {
            let default = *first;
            left.defaults = more;
            fill_named(arena, name, Some(default), left, at)
        }
    }
}

/// A star alone, before which all positions are taken.
fn pass_star(arena: &Arena, left: &Left<'_>, at: Place) -> Filled
    requires { OwnsRest (seen arena.now) left.now }
    ensures { (n : ℕ) (qs : List Parameter) → Fills result (completed at (parameters_from (bare_part ∷ qs)) (rest_of (seen arena.now) left.now) (state_in (seen arena.now) n)) (completed at (parameters_from qs) (rest_of (seen arena.now) left.now) (state_in (seen arena.now) n)) (state_in (seen arena.now) n) }
{
    if left.positions.is_empty() {
        return Ok(());
    }
    Err(refusal(arena, FaultKind::ArgBind, at))
}

/// A starred parameter: a tuple of the positions that are left.
fn fill_starred(arena: &mut Arena, left: &mut Left<'_>) -> Filled
    requires { OwnsRest (seen arena.old) left.old }
    ensures fills { (n : ℕ) (at : Place) (x : Name) (qs : List Parameter) → Fills result (completed at (parameters_from (star_part x ∷ qs)) (rest_of (seen arena.old) left.old) (state_in (seen arena.old) n)) (completed at (parameters_from qs) (rest_of (seen arena.new) left.new) (state_in (seen arena.new) n)) (state_in (seen arena.new) n) }
    ensures owns { OnOk result (OwnsRest (seen arena.new) left.new) }
    ensures grows { Grows (seen arena.old) (seen arena.new) }
{
    let tuple = arena.new_tuple(left.positions)?;
    left.positions = &[];
    put(left, tuple)?;
    Ok(())
}

/// A parameter with two stars: a new dict of the arguments by name that are left. It is refused where one behind it needs an
/// argument, since none is left for that.
fn fill_double_starred(arena: &mut Arena, more: &[Param], left: &mut Left<'_>, at: Place) -> Filled
    requires { OwnsRest (seen arena.old) left.old }
    ensures fills { (file n : ℕ) (x : Name) → Fills result (completed at (double_starred_parameter x (parameters_of file more.now)) (rest_of (seen arena.old) left.old) (state_in (seen arena.old) n)) (completed at (parameters_of file more.now) (rest_of (seen arena.new) left.new) (state_in (seen arena.new) n)) (state_in (seen arena.new) n) }
    ensures owns { OnOk result (OwnsRest (seen arena.new) left.new) }
    ensures grows { Grows (seen arena.old) (seen arena.new) }
{
    if !left.positions.is_empty() {
        return Err(refusal(arena, FaultKind::ArgBind, at));
    }
    if !need_nothing(more, left.defaults) {
        return Err(refusal(arena, FaultKind::ArgBind, at));
    }
    let dict = dict_of(arena, left.named.as_slice())?;
    left.named = Items::new(arena.alloc());
    put(left, dict)?;
    Ok(())
}

// ---- where no argument is left

/// Whether these parameters get values without any argument.
fn need_nothing(params: &[Param], defaults: &[Value]) -> bool
    ensures { (a : View) (file : ℕ) → result ≡ need_nothing (parameters_of file params.now) (values_of a defaults.now) }
{
    let mut rest = params;
    let mut left = defaults;
    while let Some((param, more)) = rest.split_first() {
        match defaults_behind(param, left) {
            None => return false,
            Some(behind) => {
                left = behind;
                rest = more;
            }
        }
    }
    true
}

/// The defaults that are left behind a parameter, if it gets a value without an argument.
fn defaults_behind<'d>(param: &Param, defaults: &'d [Value]) -> Option<&'d [Value]>
    ensures { MatchOption result ((a : View) (file : ℕ) (qs : List Parameter) → need_nothing (parameters_from (parameter_of file param.now ∷ qs)) (values_of a defaults.now) ≡ false) (λ left. (a : View) (file : ℕ) (qs : List Parameter) → need_nothing (parameters_from (parameter_of file param.now ∷ qs)) (values_of a defaults.now) ≡ need_nothing (parameters_from qs) (values_of a left.now)) }
{
    match param {
        Param::Required(_) => None,
        Param::Defaulted(_, _) => behind_first(defaults),
        Param::BareStar => Some(defaults),
        Param::Starred(_) => Some(defaults),
        Param::DoubleStarred(_) => Some(defaults),
    }
}

/// What stands behind the first, if there is one.
fn behind_first(values: &[Value]) -> Option<&[Value]>
    ensures { MatchOption result (values.now ≡ []) (λ more. (first : Value) × (values.now ≡ first ∷ more.now)) }
{
    match values.split_first() {
        None => None,
        Some((_, more)) => Some(more),
    }
}
