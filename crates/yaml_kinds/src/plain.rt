// The value of a plain scalar.
ghost use Rattle.std.specs.Prelude.{◌≡◌, ◌≤◌, IfOk};
ghost use Rattle.std.specs.Str.Parse.{IsNumeral, without_leading_sign};
ghost use Rattle.ytt_base.specs.Outcomes.{Gives};
ghost use Rattle.ytt_base.specs.Trees.{scalar};
ghost use Rattle.ytt_base.specs.View.{key_of, tree_of};
ghost use Rattle.yaml_kinds.specs.View.{key_or_fault};
ghost use Rattle.yaml_spec.specs.Plain.{plain_at};
ghost use Rattle.yaml_spec.specs.Scalars.{digits_value, integer_of, is_negative, plain, unsigned};

use crate::form::{Form, form_of};
use std::alloc::Global;
use yaml_text::refusal;
use ytt_base::fault::{FaultKind, Place, Stop};
use ytt_base::text::{Memory, Text};
use ytt_base::tree::{Key, Tree};

/// The integer of 128 bits that a sign and digits write in this base. A wider one is IntWide.
#[tactic(auto, using(crate::proofs::Integers::integers))]
fn integer(text: &str, base: u32) -> Result<Key, FaultKind>
    requires from_two { 2 ≤ base }
    requires up_to_sixteen { base ≤ 16 }
    requires numeral { IsNumeral base (without_leading_sign text.now) }
    ensures { key_or_fault result ≡ integer_of (is_negative text.now) (digits_value base 0 (unsigned text.now)) }
{
    match i128::from_str_radix(text, base) {
        Ok(integer) => Ok(Key::Int(integer)),
        Err(_) => Err(FaultKind::IntWide),
    }
}

/// The value of a plain scalar, which may stand as a key: null, a bool, an integer of 128 bits or a
/// string (YAML 1.2.2, 10.3.2, in this profile). Else why it has none: a float is FloatScalar, an
/// integer outside 128 bits IntWide, and digits behind a leading zero with an `8` or `9` among them
/// YamlOut. The only error is want of memory.
#[tactic(auto, using(crate::proofs::PlainValues::plain_values))]
pub fn plain_scalar(text: &Text) -> Result<Result<Key, FaultKind>, Memory>
    ensures { IfOk result (λ s. key_or_fault s ≡ plain text.now) }
{
    let scalar = text.as_str();
    match form_of(scalar.as_bytes()) {
        Form::Null => Ok(Ok(Key::Null)),
        Form::Bool(b) => Ok(Ok(Key::Bool(b))),
        Form::Octal => Ok(integer(scalar, 8)),
        Form::BadOctal => Ok(Err(FaultKind::YamlOut)),
        Form::Int => Ok(integer(scalar, 10)),
        Form::PrefixedOctal => Ok(integer(&scalar[2..], 8)),
        Form::PrefixedHex => Ok(integer(&scalar[2..], 16)),
        Form::Float => Ok(Err(FaultKind::FloatScalar)),
        Form::Word | Form::Str => Ok(Ok(Key::Str(text.copy()?))),
    }
}

#[tactic(auto, using(ytt_base::proofs::Views::views))]
fn scalar_tree(key: Key) -> Tree
    ensures { tree_of result ≡ scalar (key_of key) }
{
    match key {
        Key::Null => Tree::Null,
        Key::Bool(b) => Tree::Bool(b),
        Key::Int(n) => Tree::Int(n),
        Key::Str(text) => Tree::Str(text),
    }
}

/// The value of a plain scalar, as `plain_scalar` gives it. `place` is where a fault stands. Want of
/// memory is `Stop::Memory`.
pub fn type_plain(alloc: Global, text: &Text, place: Place) -> Result<Tree, Stop>
    ensures { Gives tree_of result (plain_at place text.now) }
{
    match plain_scalar(text)? {
        Ok(key) => Ok(scalar_tree(key)),
        Err(kind) => Err(refusal(alloc, kind, place)),
    }
}
