// Unions of dicts.
ghost use Rattle.std.specs.Prelude.{◌≡◌, ◌++◌, if◌then◌else◌};
ghost use Rattle.star_steps.specs.Names.{IfOk, pairs_at, join_dicts, new_keys, union_row, seen, Owns, value_of, Gives, state_in};
ghost use Rattle.star_values.specs.declared.value.Value.TheVariants as value;
ghost use Rattle.star_fragments.specs.Fresh.{OwnsPairs, pairs_of};

use crate::integers::on_integers;
use indexmap::map::Slice;
use object_arena::{Arena, Ref, Value};
use sqlite_items::Items;
use star_compare::value_under;
use star_fragments::dict_of;
use star_integers::IntegerOp;
use star_steps::{Given, pay, refusal};
use std::alloc::Global;
use ytt_base::fault::{FaultKind, Place};
use ytt_base::text::Memory;

/// Pairs of keys and values.
type PairItems = Items<(Value, Value)>;

/// The bits of two integers, or a new dict of the pairs of two; else `ValueKind`.
pub fn unite(arena: &mut Arena, place: Place, left: Value, right: Value, steps: &mut u64) -> Given
    requires left { Owns (seen arena.old) left }
    requires right { Owns (seen arena.old) right }
    ensures { Gives (union_row place (value_of (seen arena.old) left) (value_of (seen arena.old) right) (state_in (seen arena.old) steps.old)) result (seen arena.old) (seen arena.new) steps.new }
{
    match (left, right) {
        (Value::Dict(a), Value::Dict(b)) => join_dicts(arena, place, a, b, steps),
        (Value::Int(_), _) => on_integers(arena, place, IntegerOp::BitOr, left, right),
        _ => Err(refusal(arena, FaultKind::ValueKind, place)),
    }
}

/// It takes the pairs of both and of the result as steps.
fn join_dicts(arena: &mut Arena, place: Place, left: Ref, right: Ref, steps: &mut u64) -> Given
    requires left { Owns (seen arena.old) (value.Dict left) }
    requires right { Owns (seen arena.old) (value.Dict right) }
    ensures { Gives (join_dicts place left.at right.at (state_in (seen arena.old) steps.old)) result (seen arena.old) (seen arena.new) steps.new }
{
    let first = pairs(arena, left)?;
    let second = pairs(arena, right)?;
    let fresh = u128::from(new_keys(arena, left, right));
    let count = first.len() as u128;
    pay(
        arena,
        place,
        count + second.len() as u128 + (count + fresh),
        steps,
    )?;
    let all = joined(first, second)?;
    Ok(dict_of(arena, all.as_slice())?)
}

/// Pairs behind others.
fn joined(mut all: PairItems, more: PairItems) -> Result<PairItems, Memory>
    ensures { IfOk result (λ ps. ps ≡ all ++ more) }
{
    all.append(more)?;
    Ok(all)
}

/// A copy of the pairs of a dict.
fn pairs(arena: &Arena, dict: Ref) -> Result<PairItems, Memory>
    requires { Owns (seen arena.now) (value.Dict dict) }
    ensures pairs { IfOk result (λ ps. pairs_of (seen arena.now) ps ≡ pairs_at dict.at (seen arena.now).store) }
    ensures owns { IfOk result (OwnsPairs (seen arena.now)) }
{
    let all = copied(arena.alloc(), arena.pairs(dict))?;
    Ok(all)
}

fn copied(alloc: Global, pairs: Slice<'_, Value, Value>) -> Result<PairItems, Memory>
    ensures { IfOk result (λ ps. ps ≡ pairs.entry) }
{
    let mut all = Items::new(alloc);
    let mut rest = pairs;
    while let Some(((key, value), more)) = rest.split_first() {
        all.push((*key, *value))?;
        rest = more;
    }
    Ok(all)
}

/// How many keys of the right the left doesn't have.
fn new_keys(arena: &Arena, left: Ref, right: Ref) -> u64
    requires left { Owns (seen arena.now) (value.Dict left) }
    requires right { Owns (seen arena.now) (value.Dict right) }
    ensures { result ≡ new_keys (pairs_at left.at (seen arena.now).store) (pairs_at right.at (seen arena.now).store) }
{
    let mut fresh = 0;
    let mut rest = arena.pairs(right);
    while let Some(((key, _), more)) = rest.split_first() {
        fresh += one_if(value_under(arena, left, *key).is_none());
        rest = more;
    }
    fresh
}

fn one_if(test: bool) -> u64
    ensures { result ≡ (if test then 1 else 0) }
{
    if test { 1 } else { 0 }
}
