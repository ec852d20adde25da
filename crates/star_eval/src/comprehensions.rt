// Comprehensions: their clauses, and what they gather.
ghost use Rattle.std.specs.Prelude.{◌≡◌, ◌∷◌, ◌++◌, [], ℕ, IfOk, OnOk};
ghost use Rattle.code_spec.specs.Names.{clauses_names};
ghost use Rattle.star_spec.specs.Flow.{turns};
ghost use Rattle.star_tree.specs.Listed.{clauses_of};
ghost use Rattle.star_values.specs.Owns.{Each, Owns, OwnsEnv, OwnsPair};
ghost use Rattle.star_eval.specs.Doing.{all_calls, bag_made, clauses_done, comprehended, element_done};
ghost use Rattle.star_eval.specs.declared.frame.Frame.TheVariants as frames;
ghost use Rattle.star_eval.specs.Frames.{GoesTo, GoesToBag, GoesToValue, OpensClauses, inside};
ghost use Rattle.star_eval.specs.Meets.{arena_of};
ghost use Rattle.star_eval.specs.Sources.{OwnsSource, Walked};
ghost use Rattle.star_eval.specs.View.{OwnsBag, OwnsControl, OwnsInElement, Sound, arena_in, setting_of, waiting_in};
ghost use Rattle.star_eval.specs.Waiting.{in_element, turn_and_more, walked};
ghost use Rattle.star_eval.specs.Seen.{bag_in, clause_turn_in, clauses_in, element_frame_in, element_goes_in, left_in, members_walked, value_goes_in, value_in};
ghost use Rattle.star_eval.specs.Scope.{variables_in};
ghost use Rattle.star_eval.specs.declared.frame.InValue.TheVariants as value_frames;
ghost use Rattle.star_eval.specs.declared.frame.InElement.TheVariants as element_frames;

use crate::frame::{Bag, Control, Frame, InClauses, InElement, InValue, Machine};
use crate::machine::{ill_formed, lost, push, push_value, settle};
use crate::session::{Session, make_dict, make_list};
use crate::source::{Source, members_of};
use crate::walk::{begin, walk_of};
use object_arena::{Boxes, NamedBox, Pairs, Ref, Value};
use sqlite_items::{Boxed, Items};
use star_calls::open_scope;
use star_compare::key_size;
use star_ops::truth;
use star_resolve::{Scope, clause_names};
use star_tree::code::{Clause, Expr};
use std::alloc::Global;
use std::mem;
use ytt_base::fault::{FaultKind, Place, Stop};
use ytt_base::text::Memory;

/// What a comprehension of these clauses makes, which gathers so.
pub(crate) fn comprehension<'p>(
    m: &mut Machine<'p>,
    place: Place,
    clauses: &'p Items<Clause>,
    bag: Bag<'p>,
) -> Result<Control<'p>, Memory>
    requires sound { Sound m.old }
    requires bag { OwnsBag (arena_in m.old) bag }
    ensures { GoesToValue result m.new m.old (comprehended (setting_of m.old) place (clauses_in m.old clauses.now) (bag_in m.old bag.entry)) }
{
    match clauses.as_slice().split_first() {
        Some((Clause::ForIn(_target, members), _rest)) => {
            let frame = InValue::First(place, clauses, bag);
            push_value(m, frame, Control::Eval(members.get()))
        }
        Some((Clause::OnlyIf(_), _)) => Ok(ill_formed(m)),
        None => Ok(ill_formed(m)),
    }
}

/// Puts a frame on the others in which a value goes on to what is gathered, and does this in it.
fn push_element<'p>(
    m: &mut Machine<'p>,
    frame: InElement<'p>,
    control: Control<'p>,
) -> Result<Control<'p>, Memory>
    requires sound { Sound m.old }
    requires frame { OwnsInElement (arena_in m.old) frame }
    requires control { OwnsControl (arena_in m.old) control }
    ensures { GoesTo result m.new m.old (inside m.old (in_element (element_frame_in m.old frame.entry) ∷ waiting_in m.old) control.entry) }
{
    let boxed = Boxed::new(m.session.arena.alloc(), frame)?;
    push(m, Frame::Element(boxed), control)
}

/// Puts the frame of a clause on the others.
fn push_clauses<'p>(m: &mut Machine<'p>, frame: InClauses<'p>) -> Result<(), Memory>
    ensures { OnOk result (m.new ≡ record m.old { frames = m.old.frames ++ frames.Clauses frame.entry ∷ [] }) }
{
    let boxed = Boxed::new(m.session.arena.alloc(), frame)?;
    m.frames.push(Frame::Clauses(boxed))?;
    Ok(())
}

/// The names of clauses, each with a new box, in front of these.
fn open_clauses(
    session: &mut Session,
    clauses: &Items<Clause>,
    outer: &[NamedBox],
) -> Result<Boxes, Memory>
    requires { OwnsEnv (arena_of session.old) outer.now }
    ensures { (file : ℕ) → IfOk result
        (OpensClauses (clauses_names (clauses_of file clauses.now)) (variables_in session.old outer.now) session.old session.new) }
{
    let alloc = session.arena.alloc();
    let names = Scope::of(alloc, &clause_names(alloc, clauses)?)?;
    let own = open_scope(alloc, &mut session.arena, &names)?;
    Ok(joined(alloc, own, outer)?)
}

/// These boxes, and those behind them.
fn joined(alloc: Global, mut own: Boxes, outer: &[NamedBox]) -> Result<Boxes, Memory>
    ensures { IfOk result (λ all. all ≡ own ++ outer.now) }
{
    own.append(Items::from_slice(alloc, outer)?)?;
    Ok(own)
}

/// What a comprehension makes of the members of its first clause.
pub(crate) fn first<'p>(
    m: &mut Machine<'p>,
    place: Place,
    clauses: &'p Items<Clause>,
    bag: Bag<'p>,
    value: Value,
) -> Result<Control<'p>, Memory>
    requires sound { Sound m.old }
    requires bag { OwnsBag (arena_in m.old) bag }
    requires value { Owns (arena_in m.old) value }
    ensures { GoesToValue result m.new m.old (value_goes_in m.old (value_frames.First place clauses.entry bag.entry) (value_in m.old value)) }
{
    match clauses.as_slice().split_first() {
        Some((Clause::ForIn(target, _), rest)) => {
            let scope = open_clauses(&mut m.session, clauses, m.scope.as_slice())?;
            let outer = mem::replace(&mut m.scope, scope);
            m.frames.push(Frame::Gather(outer))?;
            clause_loop(m, place, target.get(), rest, bag, value)
        }
        Some((Clause::OnlyIf(_), _)) => Ok(ill_formed(m)),
        None => Ok(ill_formed(m)),
    }
}

/// A loop of a clause over the members of a value.
fn clause_loop<'p>(
    m: &mut Machine<'p>,
    place: Place,
    target: &'p Expr,
    clauses: &'p [Clause],
    bag: Bag<'p>,
    value: Value,
) -> Result<Control<'p>, Memory>
    requires sound { Sound m.old }
    requires bag { OwnsBag (arena_in m.old) bag }
    requires value { Owns (arena_in m.old) value }
    ensures { GoesToBag result m.new m.old (element_goes_in m.old (element_frames.Members place target.entry clauses.entry bag.entry) (value_in m.old value)) }
{
    match walk_of(value) {
        Some(object) => walk_clause(m, place, target, clauses, object, bag),
        None => match members_of(&m.session.arena, value)? {
            None => Ok(lost(m, FaultKind::ValueKind, place)),
            Some(members) => clause_turn(m, place, target, clauses, Source::of(members), bag),
        },
    }
}

/// A loop of a clause over the members of an object, which it walks until its end.
fn walk_clause<'p>(
    m: &mut Machine<'p>,
    place: Place,
    target: &'p Expr,
    clauses: &'p [Clause],
    object: Ref,
    bag: Bag<'p>,
) -> Result<Control<'p>, Memory>
    requires sound { Sound m.old }
    requires object { Walked (arena_in m.old) object }
    requires bag { OwnsBag (arena_in m.old) bag }
    ensures { GoesToBag result m.new m.old
        (walked object.at (turns place (clause_turn_in m.old place target.now clauses.now) (members_walked m.old object)) (bag_in m.old bag.entry)) }
{
    let members = begin(&mut m.session, object)?;
    push_clauses(m, InClauses::WalkEnd(object))?;
    clause_turn(m, place, target, clauses, Source::of(members), bag)
}

/// The turn of a clause for the next member, or its end. Each turn takes a step.
pub(crate) fn clause_turn<'p>(
    m: &mut Machine<'p>,
    place: Place,
    target: &'p Expr,
    clauses: &'p [Clause],
    source: Source,
    bag: Bag<'p>,
) -> Result<Control<'p>, Memory>
    requires sound { Sound m.old }
    requires source { OwnsSource (arena_in m.old) source }
    requires bag { OwnsBag (arena_in m.old) bag }
    ensures { GoesToBag result m.new m.old (turns place (clause_turn_in m.old place target.now clauses.now) (left_in m.old source) (bag_in m.old bag.entry)) }
{
    match source.advance(&m.session.arena)? {
        None => Ok(Control::Bagged(bag)),
        Some((value, source)) => {
            if m.session.work.steps == 0 {
                return Ok(lost(m, FaultKind::Steps, place));
            }
            m.session.work.steps -= 1;
            enter(m, place, target, clauses, value, source, bag)
        }
    }
}

/// The turn for a value after its step, and then the others.
fn enter<'p>(
    m: &mut Machine<'p>,
    place: Place,
    target: &'p Expr,
    clauses: &'p [Clause],
    value: Value,
    source: Source,
    bag: Bag<'p>,
) -> Result<Control<'p>, Memory>
    requires sound { Sound m.old }
    requires value { Owns (arena_in m.old) value }
    requires source { OwnsSource (arena_in m.old) source }
    requires bag { OwnsBag (arena_in m.old) bag }
    ensures { GoesToBag result m.new m.old
        (turn_and_more place (clause_turn_in m.old place target.now clauses.now) (value_in m.old value) (left_in m.old source) (bag_in m.old bag.entry)) }
{
    push_clauses(m, InClauses::Turn(place, target, clauses, source))?;
    push_element(
        m,
        InElement::Enter(place, clauses, bag),
        Control::Assign(place, target, value),
    )
}

/// What these clauses gather behind what was gathered.
pub(crate) fn clauses<'p>(
    m: &mut Machine<'p>,
    place: Place,
    clauses: &'p [Clause],
    bag: Bag<'p>,
) -> Result<Control<'p>, Memory>
    requires sound { Sound m.old }
    requires bag { OwnsBag (arena_in m.old) bag }
    ensures { GoesToBag result m.new m.old (clauses_done (setting_of m.old) place (clauses_in m.old clauses.now) (bag_in m.old bag.entry)) }
{
    match clauses.split_first() {
        None => element(m, place, bag),
        Some((Clause::ForIn(target, members), rest)) => {
            let frame = InElement::Members(place, target.get(), rest, bag);
            push_element(m, frame, Control::Eval(members.get()))
        }
        Some((Clause::OnlyIf(test), rest)) => {
            let frame = InElement::Test(place, rest, bag);
            push_element(m, frame, Control::Eval(test.get()))
        }
    }
}

/// One more element.
fn element<'p>(m: &mut Machine<'p>, place: Place, bag: Bag<'p>) -> Result<Control<'p>, Memory>
    requires sound { Sound m.old }
    requires bag { OwnsBag (arena_in m.old) bag }
    ensures { GoesToBag result m.new m.old (element_done (all_calls (setting_of m.old)) place (setting_of m.old).env (bag_in m.old bag.entry)) }
{
    match bag {
        Bag::Values(expr, values) => {
            let frame = InElement::Single(expr, values);
            push_element(m, frame, Control::Eval(expr))
        }
        Bag::Pairs(key, value, pairs) => {
            let frame = InElement::KeyOf(place, key, value, pairs);
            push_element(m, frame, Control::Eval(key))
        }
    }
}

/// A value in clauses, or in an element.
pub(crate) fn give_element<'p>(
    m: &mut Machine<'p>,
    frame: InElement<'p>,
    value: Value,
) -> Result<Control<'p>, Memory>
    requires sound { Sound m.old }
    requires frame { OwnsInElement (arena_in m.old) frame }
    requires value { Owns (arena_in m.old) value }
    ensures { GoesToBag result m.new m.old (element_goes_in m.old frame.entry (value_in m.old value)) }
{
    match frame {
        InElement::Members(place, target, rest, bag) => {
            clause_loop(m, place, target, rest, bag, value)
        }
        InElement::Test(place, rest, bag) => {
            if truth(&m.session.arena, value) {
                Ok(Control::Clauses(place, rest, bag))
            } else {
                Ok(Control::Bagged(bag))
            }
        }
        InElement::Enter(place, rest, bag) => Ok(Control::Clauses(place, rest, bag)),
        InElement::Single(expr, mut values) => {
            values.push(value)?;
            Ok(Control::Bagged(Bag::Values(expr, values)))
        }
        InElement::KeyOf(place, key_expr, value_expr, pairs) => {
            let frame = InElement::PairOf(place, value, key_expr, value_expr, pairs);
            push_element(m, frame, Control::Eval(value_expr))
        }
        InElement::PairOf(place, key, key_expr, value_expr, pairs) => {
            pair(m, place, (key, value), key_expr, value_expr, pairs)
        }
    }
}

/// One more pair, which takes the size of its key. A later value stands in the earlier place.
fn pair<'p>(
    m: &mut Machine<'p>,
    place: Place,
    both: (Value, Value),
    key_expr: &'p Expr,
    value_expr: &'p Expr,
    pairs: Boxed<Pairs>,
) -> Result<Control<'p>, Memory>
    requires sound { Sound m.old }
    requires key { Owns (arena_in m.old) both.0 }
    requires value { Owns (arena_in m.old) both.1 }
    requires pairs { Each (OwnsPair (arena_in m.old)) pairs.entries }
    ensures { GoesToBag result m.new m.old
        (element_goes_in m.old (element_frames.PairOf place both.0 key_expr.entry value_expr.entry pairs) (value_in m.old both.1)) }
{
    let (key, value) = both;
    let session = &mut m.session;
    match key_size(&session.arena, place, key, &mut session.work.steps) {
        Ok(()) => {
            let mut all = pairs.into_inner();
            session.arena.put_pair(&mut all, key, value)?;
            let all = Boxed::new(session.arena.alloc(), all)?;
            Ok(Control::Bagged(Bag::Pairs(key_expr, value_expr, all)))
        }
        Err(Stop::Fault(fault)) => Ok(Control::Lost(fault)),
        Err(Stop::Memory) => Err(Memory),
    }
}

/// What is made of all that was gathered.
pub(crate) fn bag_made<'p>(m: &mut Machine<'p>, bag: Bag<'p>) -> Result<Control<'p>, Memory>
    requires sound { Sound m.old }
    requires bag { OwnsBag (arena_in m.old) bag }
    ensures { GoesToValue result m.new m.old (bag_made (bag_in m.old bag.entry)) }
{
    match bag {
        Bag::Values(_expr, values) => settle(make_list(&mut m.session, values.as_slice())),
        Bag::Pairs(_key, _value, pairs) => { settle(make_dict(&mut m.session, pairs.into_inner())) }
    }
}
