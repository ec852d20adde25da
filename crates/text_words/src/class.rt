// Classes of the bytes of a text.
ghost use Rattle.std.specs.Prelude.{◌≡◌};
ghost use Rattle.std.specs.List.{list_all, list_any};
ghost use Rattle.text_spec.specs.Classes.{is_all, is_cased, is_lower, is_space, is_upper};
ghost use Rattle.text_words.specs.Tests.{test_of};

/// A class of ASCII characters.
#[derive(Clone, Copy)]
pub enum Class {
    LetterOrDigit,
    Letter,
    Digit,
    /// Space, tab, line feed, vertical tab, form feed and carriage return.
    Space,
}

/// Whether the byte is white space of ASCII, the vertical tab among it.
pub fn is_space(byte: u8) -> bool
    ensures { result ≡ is_space byte }
{
    byte == b' ' || (byte >= b'\t' && byte <= b'\r')
}

impl Class {
    #[tactic(auto, using(std::proofs::lemmas::Bool::Decides::nat_tests))]
    fn has(self, byte: u8) -> bool
        ensures { result ≡ test_of self byte }
    {
        match self {
            Class::LetterOrDigit => byte.is_ascii_alphanumeric(),
            Class::Letter => byte.is_ascii_alphabetic(),
            Class::Digit => byte.is_ascii_digit(),
            Class::Space => is_space(byte),
        }
    }
}

/// Whether each byte is of the class. It is so of no bytes.
fn has_all(class: Class, bytes: &[u8]) -> bool
    ensures { result ≡ list_all (test_of class) bytes.now }
{
    bytes.iter().all(|byte| class.has(*byte))
}

fn has_lower(bytes: &[u8]) -> bool
    ensures { result ≡ list_any is_lower bytes.now }
{
    bytes.iter().any(|byte| byte.is_ascii_lowercase())
}

fn has_upper(bytes: &[u8]) -> bool
    ensures { result ≡ list_any is_upper bytes.now }
{
    bytes.iter().any(|byte| byte.is_ascii_uppercase())
}

/// Whether the text isn't empty, and each of its characters is of the class. A character beyond ASCII is of none.
#[tactic(auto, using(crate::proofs::Bytes::tests))]
pub fn is_all(class: Class, text: &str) -> bool
    ensures { result ≡ is_all (test_of class) text.now }
{
    match text.as_bytes() {
        [] => false,
        bytes => has_all(class, bytes),
    }
}

/// Whether the text has a small letter of ASCII and no capital one.
#[tactic(auto, using(crate::proofs::Bytes::tests))]
pub fn is_lower(text: &str) -> bool
    ensures { result ≡ is_cased is_lower is_upper text.now }
{
    has_lower(text.as_bytes()) && !has_upper(text.as_bytes())
}

/// Whether the text has a capital letter of ASCII and no small one.
#[tactic(auto, using(crate::proofs::Bytes::tests))]
pub fn is_upper(text: &str) -> bool
    ensures { result ≡ is_cased is_upper is_lower text.now }
{
    has_upper(text.as_bytes()) && !has_lower(text.as_bytes())
}
