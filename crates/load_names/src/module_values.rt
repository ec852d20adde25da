// The values of modules.
ghost use Rattle.std.specs.Prelude.{◌≡◌, ◌++◌, ◌∷◌, [], IfOk, map as each, option_map};
ghost use Rattle.module_spec.specs.Modules.{a_module, module_in, modules};
ghost use Rattle.module_spec.specs.Rows.{native};
ghost use Rattle.object_arena.specs.Made.{Makes};
ghost use Rattle.star_values.specs.Objects.{seen};
ghost use Rattle.load_names.specs.Made.{MakesCall, MakesCalls, MakesModule};

use object_arena::{Answerer, Arena, NamedValue, NamedValues, Value};
use sqlite_items::Items;
use ytt_base::text::{Memory, Text};

/// The calls of the module of a name, in their order, or `None` where there is no such module.
fn calls_named(name: &str) -> Option<&'static [&'static str]>
    ensures { option_map (λ calls. a_module name.now (each (λ c. c.now) calls.now)) result ≡ module_in name.now modules }
{
    match name {
        "struct" => Some(&["make", "encode", "decode"]),
        "assert" => Some(&[
            "fail", "equals", "try_to", "min", "max", "min_len", "max_len", "not_null",
        ]),
        "template" => Some(&["replace"]),
        "json" | "yaml" | "base64" => Some(&["encode", "decode"]),
        "sha256" | "md5" => Some(&["sum"]),
        _ => None,
    }
}

/// A call of a module: a native of the host, named by the module and the call, with a dot between.
fn make_native(arena: &mut Arena, of: &str, call: &str) -> Result<Value, Memory>
    ensures { Makes (native (of.now ++ 46 ∷ call.now)) result (seen arena.old) (seen arena.new) }
{
    let mut name = String::from_str(arena.alloc(), of)?;
    name.push_str(".")?;
    name.push_str(call)?;
    arena.new_native(Answerer::Host, Text::of_string(name), None)
}

/// A call of a module, by its name there.
fn make_call(arena: &mut Arena, of: &str, call: &str) -> Result<NamedValue, Memory>
    ensures { MakesCall of.now call.now result (seen arena.old) (seen arena.new) }
{
    let name = Text::of(arena.alloc(), call)?;
    let value = make_native(arena, of, call)?;
    Ok(NamedValue { name, value })
}

/// The calls of a module, by their names there, in their order.
fn make_calls(arena: &mut Arena, of: &str, calls: &[&str]) -> Result<NamedValues, Memory>
    ensures { MakesCalls of.now (each (λ c. c.now) calls.now) result (seen arena.old) (seen arena.new) }
{
    let mut made = Items::new(arena.alloc());
    for call in calls {
        let named = make_call(arena, of, *call)?;
        made.push(named)?;
    }
    Ok(made)
}

/// The one name that the module of this name exports, which is its own, with the module as its value; `None` where there is no such
/// module. Its only error is want of memory.
pub fn make_module(arena: &mut Arena, name: &str) -> Result<Option<NamedValues>, Memory>
    ensures { MakesModule name.now result (seen arena.old) (seen arena.new) }
{
    match calls_named(name) {
        None => Ok(None),
        Some(calls) => {
            let fields = make_calls(arena, name, calls)?;
            let of = Text::of(arena.alloc(), name)?;
            let value = arena.new_module(of, fields)?;
            Ok(Some(one_named(arena, name, value)?))
        }
    }
}

/// A value by its name, alone.
fn one_named(arena: &Arena, name: &str, value: Value) -> Result<NamedValues, Memory>
    ensures { IfOk result (λ globals. globals ≡ record { name = name.now; value = value } ∷ []) }
{
    let mut globals = Items::new(arena.alloc());
    let name = Text::of(arena.alloc(), name)?;
    globals.push(NamedValue { name, value })?;
    Ok(globals)
}
