// Texts with expressions in them.
ghost use Rattle.std.specs.Prelude.{◌≡◌, ◌++◌, [], ℕ, IfOk, OnOk, string_bytes};
ghost use Rattle.star_tree.specs.Listed.{pieces_of};
ghost use Rattle.star_values.specs.Owns.{Owns};
ghost use Rattle.star_eval.specs.declared.frame.InValue.TheVariants as value_frames;
ghost use Rattle.star_eval.specs.Frames.{GoesToValue};
ghost use Rattle.star_eval.specs.Doing.{next_shown, pieces_then, written_before};
ghost use Rattle.star_eval.specs.View.{Sound, arena_in, setting_of, shown_of};
ghost use Rattle.star_eval.specs.Seen.{pieces_in, value_goes_in, value_in};

use crate::frame::{Control, InValue, Machine};
use crate::machine::{push_value, settle};
use crate::session::make_text;
use object_arena::Value;
use star_shown::push_str;
use star_tree::code::{Expr, Piece};
use ytt_base::fault::{Place, Stop};
use ytt_base::text::{Memory, Text};

/// A text with expressions in it.
pub(crate) fn template<'p>(
    m: &mut Machine<'p>,
    place: Place,
    pieces: &'p [Piece],
) -> Result<Control<'p>, Memory>
    requires { Sound m.old }
    ensures { GoesToValue result m.new m.old (pieces_then (setting_of m.old) place (pieces_in m.old pieces.now) []) }
{
    let none = String::new(m.session.arena.alloc());
    more_pieces(m, place, pieces, none)
}

/// This text with that of pieces behind it.
fn more_pieces<'p>(
    m: &mut Machine<'p>,
    place: Place,
    pieces: &'p [Piece],
    before: String,
) -> Result<Control<'p>, Memory>
    requires { Sound m.old }
    ensures { GoesToValue result m.new m.old (pieces_then (setting_of m.old) place (pieces_in m.old pieces.now) (string_bytes before)) }
{
    let mut text = before;
    let found = next_shown(pieces, &mut text)?;
    match found {
        Some((expr, rest)) => {
            let frame = InValue::Shown(place, rest, text);
            push_value(m, frame, Control::Eval(expr))
        }
        None => settle(make_text(&mut m.session, Text::of_string(text))),
    }
}

/// The first piece that is an expression, with those behind it. The text of those in front of it is put behind a text.
fn next_shown<'p>(
    pieces: &'p [Piece],
    text: &mut String,
) -> Result<Option<(&'p Expr, &'p [Piece])>, Memory>
    ensures shown { (file : ℕ) → IfOk result (λ found. shown_of file found ≡ next_shown (pieces_of file pieces.now)) }
    ensures text { (file : ℕ) → OnOk result (string_bytes text.new ≡ string_bytes text.old ++ written_before (pieces_of file pieces.now)) }
{
    let mut rest = pieces;
    while let Some((piece, more)) = rest.split_first() {
        match piece {
            Piece::Shown(expr) => return Ok(Some((expr.get(), more))),
            Piece::Written(written) => text.push_str(written.as_str())?,
        }
        rest = more;
    }
    Ok(None)
}

/// The text of a value behind this one, as by `str`, and then that of the further pieces.
pub(crate) fn shown<'p>(
    m: &mut Machine<'p>,
    place: Place,
    rest: &'p [Piece],
    before: String,
    value: Value,
) -> Result<Control<'p>, Memory>
    requires sound { Sound m.old }
    requires value { Owns (arena_in m.old) value }
    ensures { GoesToValue result m.new m.old (value_goes_in m.old (value_frames.Shown place rest.entry before) (value_in m.old value)) }
{
    let mut text = before;
    let work = &mut m.session.work;
    match push_str(&m.session.arena, place, value, &mut text, &mut work.steps) {
        Ok(_) => more_pieces(m, place, rest, text),
        Err(Stop::Fault(fault)) => Ok(Control::Failed(fault)),
        Err(Stop::Memory) => Err(Memory),
    }
}
