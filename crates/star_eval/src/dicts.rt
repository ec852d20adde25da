// Displays of dicts.
ghost use Rattle.star_values.specs.Owns.{Each, Owns, OwnsPair};
ghost use Rattle.star_eval.specs.Frames.{GoesToValue};
ghost use Rattle.star_eval.specs.Doing.{entries_done, with_entry};
ghost use Rattle.star_eval.specs.View.{Sound, arena_in, setting_of};
ghost use Rattle.star_eval.specs.Seen.{entries_in, entry_in, pairs_in, value_goes_in, value_in};
ghost use Rattle.star_eval.specs.declared.frame.InValue.TheVariants as value_frames;

use crate::frame::{Control, InValue, Machine};
use crate::machine::{failed, push_value, settle};
use crate::session::make_dict;
use object_arena::{Pairs, Value};
use star_compare::key_offence;
use star_tree::code::Entry;
use ytt_base::fault::{FaultKind, Place};
use ytt_base::text::Memory;

/// The dict of these pairs, and behind them those of these entries.
pub(crate) fn entries<'p>(
    m: &mut Machine<'p>,
    place: Place,
    entries: &'p [Entry],
    pairs: Pairs,
) -> Result<Control<'p>, Memory>
    requires sound { Sound m.old }
    requires pairs { Each (OwnsPair (arena_in m.old)) pairs.entries }
    ensures { GoesToValue result m.new m.old (entries_done (setting_of m.old) place (entries_in m.old entries.now) (pairs_in m.old pairs.entries)) }
{
    match entries.split_first() {
        None => settle(make_dict(&mut m.session, pairs)),
        Some((entry, rest)) => first_entry(m, place, entry, rest, pairs),
    }
}

/// The dict of these pairs, and behind them of this entry and of the further ones.
fn first_entry<'p>(
    m: &mut Machine<'p>,
    place: Place,
    entry: &'p Entry,
    rest: &'p [Entry],
    pairs: Pairs,
) -> Result<Control<'p>, Memory>
    requires sound { Sound m.old }
    requires pairs { Each (OwnsPair (arena_in m.old)) pairs.entries }
    ensures { GoesToValue result m.new m.old
        (entries_done (setting_of m.old) place (with_entry (entry_in m.old entry.now) (entries_in m.old rest.now)) (pairs_in m.old pairs.entries)) }
{
    match entry {
        Entry::Pair(key, value) => {
            let frame = InValue::KeyOf(place, value.get(), rest, pairs);
            push_value(m, frame, Control::Eval(key.get()))
        }
    }
}

/// One more pair, and then those of the further entries. What isn't a key is `ValueKind`, or `TooDeep` where tuples nest too deep; so is
/// a key that stands already.
pub(crate) fn pair<'p>(
    m: &mut Machine<'p>,
    place: Place,
    key: Value,
    value: Value,
    rest: &'p [Entry],
    mut pairs: Pairs,
) -> Result<Control<'p>, Memory>
    requires sound { Sound m.old }
    requires key { Owns (arena_in m.old) key }
    requires value { Owns (arena_in m.old) value }
    requires pairs { Each (OwnsPair (arena_in m.old)) pairs.entries }
    ensures { GoesToValue result m.new m.old (value_goes_in m.old (value_frames.PairOf place key rest.entry pairs) (value_in m.old value)) }
{
    if let Some(kind) = key_offence(&m.session.arena, key) {
        return Ok(failed(m, kind, place));
    }
    if m.session.arena.has_key(&pairs, key) {
        return Ok(failed(m, FaultKind::ValueKind, place));
    }
    m.session.arena.put_pair(&mut pairs, key, value)?;
    entries(m, place, rest, pairs)
}
