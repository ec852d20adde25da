// The table of the methods: which one a name is, what it takes, and as what.
ghost use Rattle.std.specs.Prelude.{◌≡◌, ◌||◌, bytes_eq, codes, is_some, map as each, option_map};
ghost use Rattle.text_spec.specs.Methods.{method_in, text_methods};
ghost use Rattle.star_text.specs.View.{kinds_of, method_of, named_methods};

use crate::kinds::{Kind, Kinds};

/// What is sought: how often a text occurs, its first place or its last.
#[derive(Clone, Copy)]
pub(crate) enum Sought {
    HowOften,
    First,
    Last,
}

/// One end of a text, or both.
#[derive(Clone, Copy)]
pub(crate) enum End {
    Front,
    Back,
    Both,
}

/// What becomes of the letters.
#[derive(Clone, Copy)]
pub(crate) enum Letters {
    Lower,
    Upper,
    Capital,
}

/// What is asked of each byte.
#[derive(Clone, Copy)]
pub(crate) enum Test {
    LetterOrDigit,
    Letter,
    Digit,
    Space,
    Lower,
    Upper,
}

/// A method of texts but `format`. A search may have to find something.
#[derive(Clone, Copy)]
pub(crate) enum TextMethod {
    Search(Sought, bool),
    AtFront,
    AtBack,
    WithoutPrefix,
    WithoutSuffix,
    Replace,
    Join,
    Partition,
    PartitionBack,
    Split,
    SplitBack,
    Lines,
    Strip(End),
    Change(Letters),
    Ask(Test),
}

/// The method of a name among these.
fn method_among(name: &str, methods: &[(&str, TextMethod)]) -> Option<TextMethod>
    ensures { option_map method_of result ≡ method_in name.now (named_methods methods.now) }
{
    for method in methods {
        if name == method.0 {
            return Some(method.1);
        }
    }
    None
}

/// The method of a name.
pub(crate) fn method_named(name: &str) -> Option<TextMethod>
    ensures { option_map method_of result ≡ method_in name.now text_methods }
{
    method_among(
        name,
        &[
            ("count", TextMethod::Search(Sought::HowOften, false)),
            ("find", TextMethod::Search(Sought::First, false)),
            ("rfind", TextMethod::Search(Sought::Last, false)),
            ("index", TextMethod::Search(Sought::First, true)),
            ("rindex", TextMethod::Search(Sought::Last, true)),
            ("startswith", TextMethod::AtFront),
            ("endswith", TextMethod::AtBack),
            ("removeprefix", TextMethod::WithoutPrefix),
            ("removesuffix", TextMethod::WithoutSuffix),
            ("replace", TextMethod::Replace),
            ("join", TextMethod::Join),
            ("partition", TextMethod::Partition),
            ("rpartition", TextMethod::PartitionBack),
            ("split", TextMethod::Split),
            ("rsplit", TextMethod::SplitBack),
            ("splitlines", TextMethod::Lines),
            ("strip", TextMethod::Strip(End::Both)),
            ("lstrip", TextMethod::Strip(End::Front)),
            ("rstrip", TextMethod::Strip(End::Back)),
            ("lower", TextMethod::Change(Letters::Lower)),
            ("upper", TextMethod::Change(Letters::Upper)),
            ("capitalize", TextMethod::Change(Letters::Capital)),
            ("isalnum", TextMethod::Ask(Test::LetterOrDigit)),
            ("isalpha", TextMethod::Ask(Test::Letter)),
            ("isdigit", TextMethod::Ask(Test::Digit)),
            ("isspace", TextMethod::Ask(Test::Space)),
            ("islower", TextMethod::Ask(Test::Lower)),
            ("isupper", TextMethod::Ask(Test::Upper)),
        ],
    )
}

/// Whether texts have a method of this name, `format` among them.
pub fn has_method(name: &str) -> bool
    ensures { result ≡ (bytes_eq name.now (codes "format") || is_some (method_in name.now text_methods)) }
{
    name == "format" || method_named(name).is_some()
}

/// The parameters of a method: those that must be given, and those that may be; and as what each is read.
#[derive(Clone, Copy)]
pub(crate) struct Signature {
    pub needed: &'static [&'static str],
    pub optional: &'static [&'static str],
    pub kinds: Kinds,
}

fn taking(
    needed: &'static [&'static str],
    optional: &'static [&'static str],
    first: Kind,
    second: Kind,
    third: Kind,
) -> Signature
    ensures needed { result.needed.now ≡ needed.now }
    ensures optional { result.optional.now ≡ optional.now }
    ensures kinds { result.kinds ≡ record { first = first; second = second; third = third } }
{
    let kinds = Kinds {
        first,
        second,
        third,
    };
    Signature {
        needed,
        optional,
        kinds,
    }
}

/// What a method takes.
pub(crate) fn signature_of(method: TextMethod) -> Signature
    ensures needed { each (λ w. w.now) result.needed.now ≡ (method_of method).needed }
    ensures optional { each (λ w. w.now) result.optional.now ≡ (method_of method).optional }
    ensures kinds { kinds_of result.kinds ≡ (method_of method).kinds }
{
    let none = Kind::Nothing;
    match method {
        TextMethod::Search(_, _) => {
            let bound = Kind::OptionalInteger;
            taking(&["sub"], &["start", "end"], Kind::Text, bound, bound)
        }
        TextMethod::AtFront | TextMethod::AtBack => {
            taking(&["x"], &[], Kind::TextOrTexts, none, none)
        }
        TextMethod::WithoutPrefix | TextMethod::WithoutSuffix => {
            taking(&["x"], &[], Kind::Text, none, none)
        }
        TextMethod::Replace => {
            let text = Kind::Text;
            taking(&["a", "b"], &["n"], text, text, Kind::OptionalInteger)
        }
        TextMethod::Join => taking(&["x"], &[], Kind::TextMembers, none, none),
        TextMethod::Partition | TextMethod::PartitionBack => {
            taking(&["sep"], &[], Kind::Separator, none, none)
        }
        TextMethod::Split | TextMethod::SplitBack => {
            let separator = Kind::OptionalSeparator;
            taking(&[], &["sep", "n"], separator, Kind::OptionalInteger, none)
        }
        TextMethod::Lines => taking(&[], &["keep"], Kind::OptionalBool, none, none),
        TextMethod::Strip(_) => taking(&[], &["chars"], Kind::OptionalText, none, none),
        TextMethod::Change(_) | TextMethod::Ask(_) => taking(&[], &[], none, none, none),
    }
}
