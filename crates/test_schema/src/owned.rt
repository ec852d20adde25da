// Which values an arena owns, tested.
ghost use Rattle.std.specs.Prelude.{IsTrue};
ghost use Rattle.star_values.specs.Objects.{seen};
ghost use Rattle.star_values.specs.Owns.{Owns};
ghost use Rattle.test_schema.specs.Standing.{IsOf};

use object_arena::{Arena, Ref, Sort, Value};

/// Whether what stands at a reference is owned and of a kind.
fn is_of(arena: &Arena, r: Ref, sort: Sort) -> bool
    ensures { IsTrue result → IsOf (seen arena.now) sort r }
{
    if r.sort == sort {
        return arena.owns(r);
    }
    false
}

/// Whether the arena owns what the value says, of the kind that its variant names.
pub fn is_owned(arena: &Arena, value: Value) -> bool
    ensures { IsTrue result → Owns (seen arena.now) value }
{
    match value {
        Value::None | Value::Bool(_) | Value::Int(_) => true,
        Value::Text(r) => is_of(arena, r, Sort::Text),
        Value::List(r) => is_of(arena, r, Sort::List),
        Value::Dict(r) => is_of(arena, r, Sort::Dict),
        Value::Tuple(r) => is_of(arena, r, Sort::Tuple),
        Value::Range(r) => is_of(arena, r, Sort::Range),
        Value::Struct(r) => is_of(arena, r, Sort::Struct),
        Value::Fragment(r) => is_of(arena, r, Sort::Fragment),
        Value::Func(r) => is_of(arena, r, Sort::Func),
        Value::Native(r) => is_of(arena, r, Sort::Native),
        Value::Module(r) => is_of(arena, r, Sort::Module),
    }
}
