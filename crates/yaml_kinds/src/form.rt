// The form of a plain scalar.
ghost use Rattle.std.specs.Prelude.{◌≡◌};
ghost use Rattle.yaml_spec.specs.Scalars.{form, has_leading_zero, is_string_form};
ghost use Rattle.yaml_kinds.specs.Kinds.{plain_form};

use crate::bytes::{all_octal_digits, some_digits};
use crate::number::{is_float, is_prefixed_hex, is_prefixed_octal, unsigned};
use crate::words::{is_false_word, is_null_word, is_true_word, is_yes_word};

/// The forms of a plain scalar, in the order in which they are tried.
#[derive(Clone, Copy)]
pub enum Form {
    Null,
    Bool(bool),
    /// Octal digits behind `0`, a sign before them or none.
    Octal,
    /// Decimal digits behind `0`, an `8` or `9` among them.
    BadOctal,
    /// Decimal digits, a sign before them or none.
    Int,
    /// Octal digits behind `0o`.
    PrefixedOctal,
    /// Hexadecimal digits behind `0x`.
    PrefixedHex,
    Float,
    /// A word that YAML 1.1 reads as a bool.
    Word,
    Str,
}

fn has_leading_zero(digits: &[u8]) -> bool
    ensures { result ≡ has_leading_zero digits.now }
{
    match digits.split_first() {
        Some((b'0', rest)) => some_digits(rest),
        _ => false,
    }
}

/// The form of a plain scalar: the first of the variants that fits, in their order (YAML 1.2.2,
/// 10.3.2, in this profile).
#[tactic(auto, using(crate::proofs::FormTests::forms))]
pub fn form_of(text: &[u8]) -> Form
    ensures { plain_form result ≡ form text.now }
{
    let digits = unsigned(text);
    if is_null_word(text) {
        Form::Null
    } else if is_true_word(text) {
        Form::Bool(true)
    } else if is_false_word(text) {
        Form::Bool(false)
    } else if has_leading_zero(digits) && all_octal_digits(digits) {
        Form::Octal
    } else if has_leading_zero(digits) {
        Form::BadOctal
    } else if some_digits(digits) {
        Form::Int
    } else if is_prefixed_octal(text) {
        Form::PrefixedOctal
    } else if is_prefixed_hex(text) {
        Form::PrefixedHex
    } else if is_float(text) {
        Form::Float
    } else if is_yes_word(text) {
        Form::Word
    } else {
        Form::Str
    }
}

/// Whether a plain scalar of this text is a string, and none of the words that YAML 1.1 reads as
/// a bool. So it is no null, bool, integer or float, and no integer with a leading zero, whether
/// or not its digits are octal.
pub fn is_string(text: &[u8]) -> bool
    ensures { result ≡ is_string_form (form text.now) }
{
    matches!(form_of(text), Form::Str)
}
