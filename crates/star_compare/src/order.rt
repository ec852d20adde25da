// The order of values.
ghost use Rattle.std.specs.Prelude.{◌≡◌};
ghost use Rattle.star_steps.specs.Names.{are_comparable, by_bool, by_integer, by_members, by_number, comparison, max_depth, order_within, rank, seen, Owns, OwnsAll, View, value_of, values_of, Meets, as_is, state_in};
ghost use Rattle.star_compare.specs.Alike.{both_measured, comparison_of, ordered};

use crate::sizes::{MAX_DEPTH, ORDERED_RANKS, pay_size, rank_of};
use object_arena::{Arena, Value};
use star_steps::{Depth, Paid, refusal, tuple_members};
use std::cmp::Ordering;
use ytt_base::fault::{FaultKind, Place, Stop};

/// Which of two values comes first, where collections may nest so many levels. Those of unlike kinds stand in the order None, bool, int,
/// text, tuple, list.
#[cycle(order)]
#[tactic(auto, unfolding(crate::specs::Alike::ordered))]
fn order(arena: &Arena, levels: u32, left: Value, right: Value) -> Ordering
    requires left { Owns (seen arena.now) left }
    requires right { Owns (seen arena.now) right }
    ensures { comparison_of result ≡ ordered levels (seen arena.now).store (value_of (seen arena.now) left) (value_of (seen arena.now) right) }
{
    match (left, right) {
        (Value::Bool(a), Value::Bool(b)) => bool_order(a, b),
        (Value::Int(a), Value::Int(b)) => int_order(a, b),
        (Value::Text(a), Value::Text(b)) => {
            text_order(arena.text(a).as_str(), arena.text(b).as_str())
        }
        (Value::Tuple(a), Value::Tuple(b)) => {
            members_order(
                arena,
                levels,
                tuple_members(arena, a),
                tuple_members(arena, b),
            )
        }
        (Value::List(a), Value::List(b)) => {
            members_order(arena, levels, arena.list(a), arena.list(b))
        }
        _ => rank_order(left, right),
    }
}

#[cycle(order)]
fn members_order(arena: &Arena, levels: u32, left: &[Value], right: &[Value]) -> Ordering
    requires left { OwnsAll (seen arena.now) left.now }
    requires right { OwnsAll (seen arena.now) right.now }
    ensures { comparison_of result ≡ order_within levels (seen arena.now).store (values_of (seen arena.now) left.now) (values_of (seen arena.now) right.now) }
{
    if levels == 0 {
        return Ordering::Equal;
    }
    each_order(arena, levels - 1, left, right)
}

#[cycle(order)]
fn each_order(arena: &Arena, levels: u32, left: &[Value], right: &[Value]) -> Ordering
    requires left { OwnsAll (seen arena.now) left.now }
    requires right { OwnsAll (seen arena.now) right.now }
    ensures { comparison_of result ≡ by_members (ordered levels (seen arena.now).store) (values_of (seen arena.now) left.now) (values_of (seen arena.now) right.now) }
{
    let mut lefts = left;
    let mut rights = right;
    while let [first, more @ ..] = lefts {
        match rights {
            [] => return Ordering::Greater,
            [second, others @ ..] => {
                match order(arena, levels, *first, *second) {
                    Ordering::Less => return Ordering::Less,
                    Ordering::Greater => return Ordering::Greater,
                    Ordering::Equal => {}
                }
                lefts = more;
                rights = others;
            }
        }
    }
    if rights.is_empty() {
        Ordering::Equal
    } else {
        Ordering::Less
    }
}

fn bool_order(left: bool, right: bool) -> Ordering
    ensures { comparison_of result ≡ by_bool left right }
{
    if left == right {
        Ordering::Equal
    } else if right {
        Ordering::Less
    } else {
        Ordering::Greater
    }
}

fn int_order(left: i128, right: i128) -> Ordering
    ensures { comparison_of result ≡ by_integer left right }
{
    if left < right {
        Ordering::Less
    } else if right < left {
        Ordering::Greater
    } else {
        Ordering::Equal
    }
}

/// Two texts by their bytes.
fn text_order(left: &str, right: &str) -> Ordering
    ensures { comparison_of result ≡ by_members by_number left.now right.now }
{
    let mut lefts = left.as_bytes();
    let mut rights = right.as_bytes();
    while let [first, more @ ..] = lefts {
        match rights {
            [] => return Ordering::Greater,
            [second, others @ ..] => {
                if *first < *second {
                    return Ordering::Less;
                }
                if *second < *first {
                    return Ordering::Greater;
                }
                lefts = more;
                rights = others;
            }
        }
    }
    if rights.is_empty() {
        Ordering::Equal
    } else {
        Ordering::Less
    }
}

/// Two values by their ranks.
fn rank_order(left: Value, right: Value) -> Ordering
    ensures { (a : View) → comparison_of result ≡ by_number (rank (value_of a left)) (rank (value_of a right)) }
{
    let a = rank_of(left);
    let b = rank_of(right);
    if a < b {
        Ordering::Less
    } else if a == b {
        Ordering::Equal
    } else {
        Ordering::Greater
    }
}

/// Which of two values comes first: bools, integers, texts, tuples or lists in their order, and values of unlike kinds in the order None,
/// bool, int, text, tuple, list. It takes no steps and refuses nothing: what stands past 100 levels counts as the same.
pub fn order_of(arena: &Arena, left: Value, right: Value) -> Ordering
    requires left { Owns (seen arena.now) left }
    requires right { Owns (seen arena.now) right }
    ensures { comparison_of result ≡ ordered max_depth (seen arena.now).store (value_of (seen arena.now) left) (value_of (seen arena.now) right) }
{
    order(arena, MAX_DEPTH, left, right)
}

/// Whether two values are of one kind, which has an order.
pub fn comparable(left: Value, right: Value) -> bool
    ensures { (a : View) → result ≡ are_comparable (value_of a left) (value_of a right) }
{
    let rank = rank_of(left);
    rank == rank_of(right) && 0 < rank && rank < ORDERED_RANKS
}

/// Which of two bools, integers, texts, tuples or lists comes first; else `ValueKind`, also where something else stands in
/// them. It takes the sizes of both as steps.
pub fn compare(
    arena: &Arena,
    place: Place,
    left: Value,
    right: Value,
    steps: &mut u64,
) -> Result<Ordering, Stop>
    requires left { Owns (seen arena.now) left }
    requires right { Owns (seen arena.now) right }
    ensures { Meets comparison_of result (state_in (seen arena.now) steps.new) (comparison place (value_of (seen arena.now) left) (value_of (seen arena.now) right) (state_in (seen arena.now) steps.old)) }
{
    if !comparable(left, right) {
        return Err(refusal(arena, FaultKind::ValueKind, place));
    }
    pay_sizes(arena, place, left, right, steps)?;
    Ok(order(arena, MAX_DEPTH, left, right))
}

/// The steps of both.
fn pay_sizes(arena: &Arena, place: Place, left: Value, right: Value, steps: &mut u64) -> Paid
    requires left { Owns (seen arena.now) left }
    requires right { Owns (seen arena.now) right }
    ensures { Meets as_is result (state_in (seen arena.now) steps.new) (both_measured place (value_of (seen arena.now) left) (value_of (seen arena.now) right) (state_in (seen arena.now) steps.old)) }
{
    let levels = MAX_DEPTH;
    let at = Depth { place, levels };
    pay_size(arena, at, ORDERED_RANKS, left, steps)?;
    pay_size(arena, at, ORDERED_RANKS, right, steps)
}
