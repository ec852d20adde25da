// The names of a load statement.
ghost use Rattle.std.specs.Prelude.{◌≡◌, ◌++◌, ◌∷◌, [], MatchOption, None, OnOk, Some};
ghost use Rattle.star_tree.specs.Whole.{loaded_names_of};
ghost use Rattle.star_values.specs.Owns.{Owns, OwnsFields, OwnsOption};
ghost use Rattle.star_values.specs.View.{View, option_in, value_of};
ghost use Rattle.template_meaning.specs.Files.{is_private, private_among, value_among};
ghost use Rattle.load_names.specs.Loads.{FaultsWith, LoadsNames, globals_of};

use star_tree::code::Loaded;
use star_values::{NamedValue, NamedValues, Value};
use ytt_base::fault::{Fault, FaultKind, Place, Stop};
use ytt_base::text::{Memory, Text};

/// The fault of this kind at a place, whose detail is this text; or want of memory for that text.
pub fn fault_with(kind: FaultKind, place: Place, detail: &Text) -> Stop
    ensures { FaultsWith kind place detail.now result }
{
    match detail.copy() {
        Ok(detail) => Stop::Fault(Fault {
            kind,
            place: Some(place),
            detail,
        }),
        Err(memory) => memory.into(),
    }
}

/// Whether a name begins with `_`.
fn is_private(name: &str) -> bool
    ensures { result ≡ is_private name.now }
{
    name.starts_with('_')
}

/// The first of these names that begins with `_` in what is loaded, if there is one.
pub fn private_among(names: &[Loaded]) -> Option<&Text>
    ensures { MatchOption result (private_among (loaded_names_of names.now) ≡ None) (λ x. private_among (loaded_names_of names.now) ≡ Some x.now) }
{
    for name in names {
        if is_private(name.origin.as_str()) {
            return Some(&name.origin);
        }
    }
    None
}

/// The first value of this name, if there is one.
fn value_among(globals: &[NamedValue], name: &str) -> Option<Value>
    ensures value { (a : View) → option_in a.held result ≡ value_among name.now (globals_of a globals.now) }
    ensures owned { (a : View) → OwnsFields a globals.now → OwnsOption a result }
{
    for global in globals {
        if global.name.as_str() == name {
            return Some(global.value);
        }
    }
    None
}

/// Puts a value under a name behind those that a file has got.
fn put(got: &mut NamedValues, name: &Text, value: Value) -> Result<(), Memory>
    ensures got { (a : View) → OnOk result (globals_of a got.new ≡ globals_of a got.old ++ (name.now, value_of a value) ∷ []) }
    ensures owned { (a : View) → Owns a value → OwnsFields a got.old → OwnsFields a got.new }
{
    let name = name.copy()?;
    got.push(NamedValue { name, value })?;
    Ok(())
}

/// Puts the names that a load statement binds behind those that a file has got, in their order, each with the value that the name it is
/// loaded from has among these, which are those of what is loaded; the first name that isn't among them is `LoadMissing` at the place,
/// with that name. Which of its names are private isn't asked. After a refusal the names before it may stand among those that were got.
pub fn names_loaded(
    place: Place,
    names: &[Loaded],
    globals: &[NamedValue],
    got: &mut NamedValues,
) -> Result<(), Stop>
    ensures { (a : View) → LoadsNames a place (loaded_names_of names.now) globals.now result got.new got.old }
{
    for name in names {
        match value_among(globals, name.origin.as_str()) {
            None => return Err(fault_with(FaultKind::LoadMissing, place, &name.origin)),
            Some(value) => put(got, &name.bound, value)?,
        }
    }
    Ok(())
}
