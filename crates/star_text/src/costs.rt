// The cost of an operation.
ghost use Rattle.std.specs.Prelude.{◌≡◌, ◌∷◌, ◌+◌, ◌/◌, ℕ};
ghost use Rattle.star_steps.specs.Names.{Owns, OwnsAll, seen, value_of};
ghost use Rattle.text_spec.specs.Answers.{bytes_in};
ghost use Rattle.star_text.specs.Calls.{PaysOperation};
ghost use Rattle.star_text.specs.View.{IsCost, IsCount};

use object_arena::{Arena, Value};
use star_ops::member_count;
use star_steps::{Paid, pay, refusal};
use ytt_base::fault::{FaultKind, Place};

/// A count, or `None` where it is past every budget.
pub type Count = Option<u128>;

/// Takes a sixteenth of the bytes of the texts among a value and others and of so many more, and the members of the collections among them
/// and so many more. A sum past every budget is `Steps` at once.
pub fn pay_operation(
    arena: &Arena,
    place: Place,
    value: Value,
    others: &[Value],
    bytes: Count,
    members: Count,
    steps: &mut u64,
) -> Paid
    requires value { Owns (seen arena.now) value }
    requires others { OwnsAll (seen arena.now) others.now }
    ensures { PaysOperation (seen arena.now) place (value ∷ others.now) bytes members result steps.old steps.new }
{
    let mut all_bytes = and(bytes, byte_count(arena, value));
    let mut all_members = and(members, member_count(arena, value));
    let mut rest = others;
    while let Some((first, more)) = rest.split_first() {
        all_bytes = and(all_bytes, byte_count(arena, *first));
        all_members = and(all_members, member_count(arena, *first));
        rest = more;
    }
    match cost(all_bytes, all_members) {
        // No budget has so many steps.
        None => {
            let _budget = *steps;
            Err(refusal(arena, FaultKind::Steps, place))
        }
        Some(all) => pay(arena, place, all, steps),
    }
}

/// The bytes of a text, and none of what is none.
fn byte_count(arena: &Arena, value: Value) -> u128
    requires { Owns (seen arena.now) value }
    ensures { result ≡ bytes_in (value_of (seen arena.now) value) }
{
    match value {
        Value::Text(text) => arena.text(text).as_str().len() as u128,
        _ => 0,
    }
}

/// So many more.
fn and(count: Count, more: u128) -> Count
    ensures { (n : ℕ) → IsCount count n → IsCount result (n + more) }
{
    match count {
        None => None,
        Some(count) => count.checked_add(more),
    }
}

/// A sixteenth of so many bytes, and so many members.
fn cost(bytes: Count, members: Count) -> Count
    ensures { (b m : ℕ) → IsCount bytes b → IsCount members m → IsCost result (b / 16 + m) }
{
    match (bytes, members) {
        (Some(bytes), Some(members)) => (bytes / 16).checked_add(members),
        _ => None,
    }
}
