// Where a text is found in another.
ghost use Rattle.std.specs.Prelude.{◌≡◌, ◌≤◌, false, length};
ghost use Rattle.text_spec.specs.Methods.{begins_behind, limit_in, place_answer, place_of, search_row, sought_in, sought_nowhere};
ghost use Rattle.star_text.specs.View.{answer_of, operand_of, operands_of, sought_of};

use crate::answers::Answer;
use crate::kinds::{Operand, Operands, integer_or, text_in};
use crate::table::Sought;
use text_pieces::{count_between, first_between, last_between};

/// What a search of a text gives. Its bounds are the second and the third argument, or the ends of the text.
pub(crate) fn search<'a>(
    sought: Sought,
    must_be: bool,
    text: &str,
    operands: &Operands<'_>,
) -> Answer<'a>
    ensures { answer_of result ≡ search_row (sought_of sought) must_be text.now (operands_of operands.now) }
{
    let part = text_in(&operands.first);
    let count = text.len();
    let from = integer_or(0, &operands.second);
    let to = integer_or(count as i128, &operands.third);
    if begins_behind(count, from, to) {
        return found_nowhere(sought, must_be);
    }
    let from = place_of(count, from);
    let to = place_of(count, to);
    match sought {
        Sought::HowOften => Answer::Number(count_between(part, text, from, to) as i128),
        Sought::First => found(must_be, first_between(part, text, from, to)),
        Sought::Last => found(must_be, last_between(part, text, from, to)),
    }
}

/// A number as a place among so many: from the end where it is negative, and no further than the ends.
pub fn place_of(count: usize, number: i128) -> usize
    ensures value { result ≡ place_of count number }
    ensures bound { result ≤ count }
{
    if number >= count as i128 {
        count
    } else if number >= 0 {
        number as usize
    } else if number + count as i128 <= 0 {
        0
    } else {
        (number + count as i128) as usize
    }
}

/// Whether a search begins behind the text, or behind its own end.
fn begins_behind(count: usize, from: i128, to: i128) -> bool
    ensures { result ≡ begins_behind count from to }
{
    from > count as i128 || place_of(count, to) < place_of(count, from)
}

/// The place that was found, or -1, or nothing where there must be one.
fn found<'a>(must_be: bool, place: Option<usize>) -> Answer<'a>
    ensures { answer_of result ≡ place_answer must_be place }
{
    match place {
        Some(place) => Answer::Number(place as i128),
        None => {
            if must_be {
                Answer::Nowhere
            } else {
                Answer::Number(-1)
            }
        }
    }
}

fn found_nowhere<'a>(sought: Sought, must_be: bool) -> Answer<'a>
    ensures { answer_of result ≡ sought_nowhere (sought_of sought) must_be }
{
    match sought {
        Sought::HowOften => Answer::Number(0),
        _ => found(must_be, None),
    }
}

/// How many cuts at most: the number that is given, but no more than there can be.
pub(crate) fn limit_in(text: &str, operand: &Operand<'_>) -> u128
    ensures { result ≡ limit_in text.now (operand_of operand.now) }
{
    let most = text.len() as u128 + 1;
    let given = integer_or(-1, operand);
    if given < 0 || given as u128 > most {
        most
    } else {
        given as u128
    }
}
