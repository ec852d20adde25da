// A field of `format`: which argument fills it, and how that is shown.
ghost use Rattle.std.specs.Prelude.{◌≡◌, ◌+◌, ◌-◌, ◌*◌, ℕ, MatchOption, false};
ghost use Rattle.std.specs.List.{list_all};
ghost use Rattle.text_spec.specs.Fields.{conversion_named, digits_number, field_in, is_name_byte, is_shown, which_of};
ghost use Rattle.star_text.specs.Formatting.{begins_name, IsPlace, IsShownAs, IsWhich};

use crate::percent::Conversion;
use text_words::{Class, is_all};

/// Which argument fills a field: the next one, that of a number (`None` where it is past every place), that of a name, or none.
#[derive(Clone, Copy)]
pub(crate) enum Which<'t> {
    Next,
    Numbered(Option<usize>),
    Named(&'t str),
    Nothing,
}

/// Which argument fills the field, and how it is shown, if that has a proper form.
pub(crate) fn field_in(field: &str) -> (Which<'_>, Option<Conversion>)
    ensures which { IsWhich result.0 (field_in field.now).which }
    ensures conversion { MatchOption result.1 (is_shown (field_in field.now).conversion ≡ false) (IsShownAs (field_in field.now).conversion) }
{
    match field.split_once('!') {
        None => (which_of(field), Some(Conversion::Str)),
        Some((name, shown)) => (which_of(name), conversion_named(shown)),
    }
}

fn conversion_named(name: &str) -> Option<Conversion>
    ensures { MatchOption result (is_shown (conversion_named name.now) ≡ false) (IsShownAs (conversion_named name.now)) }
{
    match name {
        "s" => Some(Conversion::Str),
        "r" => Some(Conversion::Repr),
        _ => None,
    }
}

fn which_of(name: &str) -> Which<'_>
    ensures { IsWhich result (which_of name.now) }
{
    if name.is_empty() {
        Which::Next
    } else if is_all(Class::Digit, name) {
        Which::Numbered(place_of(name.as_bytes()))
    } else if begins_name(name.as_bytes()) && has_name_bytes(name.as_bytes()) {
        Which::Named(name)
    } else {
        Which::Nothing
    }
}

/// Whether the first byte is no digit.
fn begins_name(name: &[u8]) -> bool
    ensures { result ≡ begins_name name.now }
{
    match name.first() {
        None => false,
        Some(byte) => !byte.is_ascii_digit(),
    }
}

/// Whether each byte is a letter, a digit or `_`.
fn has_name_bytes(name: &[u8]) -> bool
    ensures { result ≡ list_all is_name_byte name.now }
{
    name.iter().all(|byte| is_name_byte(*byte))
}

#[tactic(auto, using(std::proofs::lemmas::Bool::Decides::nat_tests))]
fn is_name_byte(byte: u8) -> bool
    ensures { result ≡ is_name_byte byte }
{
    byte.is_ascii_alphanumeric() || byte == b'_'
}

/// The number of digits, or `None` where it is past every place.
fn place_of(digits: &[u8]) -> Option<usize>
    ensures { IsPlace result (digits_number 0 digits.now) }
{
    let mut place = Some(0);
    for byte in digits {
        place = with_digit(place, *byte);
    }
    place
}

/// A number with a digit more.
fn with_digit(place: Option<usize>, byte: u8) -> Option<usize>
    ensures { (n : ℕ) → IsPlace place n → IsPlace result (n * 10 + (byte - 48)) }
{
    place?
        .checked_mul(10)?
        .checked_add(byte.saturating_sub(b'0') as usize)
}
