// New boxes for names.
ghost use Rattle.std.specs.Prelude.{◌≡◌, ◌++◌, IfOk, OnOk, length, reverse};
ghost use Rattle.star_resolve.specs.Frames.{unset_boxes};
ghost use Rattle.star_values.specs.Objects.{seen, variable_in};
ghost use Rattle.star_values.specs.Owns.{Grows, OwnsVariable};
ghost use Rattle.star_calls.specs.Scope.{Opens};

use object_arena::{Arena, Boxes, NamedBox, Value};
use sqlite_items::Items;
use star_resolve::Scope;
use std::alloc::Global;
use ytt_base::text::{Memory, Text};

/// A new box without a value, for a name.
pub(crate) fn named_box(alloc: Global, arena: &mut Arena, name: &str) -> Result<NamedBox, Memory>
    ensures name { IfOk result (λ b. variable_in (seen arena.new).held b ≡ (name.now, length (seen arena.old).store)) }
    ensures owned { IfOk result (OwnsVariable (seen arena.new)) }
    ensures store { OnOk result ((seen arena.new).store ≡ (seen arena.old).store ++ unset_boxes 1) }
    ensures grows { Grows (seen arena.old) (seen arena.new) }
{
    let text = Text::of(alloc, name)?;
    match arena.new_text(text)? {
        Value::Text(name) => {
            let at = arena.new_box()?;
            Ok(NamedBox { name, at })
        }
        _ => unreachable!(),
    }
}

/// These boxes, the last one first.
fn reversed(alloc: Global, mut boxes: Boxes) -> Result<Boxes, Memory>
    ensures { IfOk result (λ scope. scope ≡ reverse boxes) }
{
    let mut scope = Items::new(alloc);
    while let Some(last) = boxes.pop() {
        scope.push(last)?;
    }
    Ok(scope)
}

/// A new box without a value for each of these names, in their order; the last one stands first in the scope.
pub fn open_scope(alloc: Global, arena: &mut Arena, names: &Scope) -> Result<Boxes, Memory>
    ensures opens { IfOk result (Opens names.now (seen arena.old) (seen arena.new)) }
    ensures grows { Grows (seen arena.old) (seen arena.new) }
{
    let mut made = Items::new(alloc);
    for at in 0..names.len() {
        match names.name(at) {
            None => unreachable!(),
            Some(name) => made.push(named_box(alloc, arena, name)?)?,
        }
    }
    reversed(alloc, made)
}
