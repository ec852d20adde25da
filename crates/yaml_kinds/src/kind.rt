// The kind of a plain scalar.
ghost use Rattle.std.specs.Prelude.{◌≡◌};
ghost use Rattle.yaml_spec.specs.Scalars.{plain_kind};
ghost use Rattle.yaml_kinds.specs.Kinds.{kind_told};

use crate::form::{Form, form_of};
use ytt_base::text::Text;

/// What a plain scalar is by its form.
#[derive(Clone, Copy, PartialEq, Eq)]
pub enum ScalarKind {
    Null,
    Bool,
    /// Decimal digits, a sign before them or none.
    Int,
    /// Octal digits behind `0`, a sign before them or none, or behind `0o`.
    Octal,
    /// Decimal digits behind `0`, an `8` or `9` among them. It has no value.
    BadOctal,
    /// Hexadecimal digits behind `0x`.
    Hex,
    /// A decimal fraction, an infinity or no number. It has no value.
    Float,
    /// A string that YAML 1.1 reads as a bool, such as `yes` or `off`.
    Word,
    Str,
}

/// What a plain scalar of this text is. It takes no memory, and looks at no integer's size.
pub fn plain_kind(text: &Text) -> ScalarKind
    ensures { kind_told result ≡ plain_kind text.now }
{
    match form_of(text.as_str().as_bytes()) {
        Form::Null => ScalarKind::Null,
        Form::Bool(_) => ScalarKind::Bool,
        Form::Int => ScalarKind::Int,
        Form::Octal | Form::PrefixedOctal => ScalarKind::Octal,
        Form::BadOctal => ScalarKind::BadOctal,
        Form::PrefixedHex => ScalarKind::Hex,
        Form::Float => ScalarKind::Float,
        Form::Word => ScalarKind::Word,
        Form::Str => ScalarKind::Str,
    }
}
