// What a text begins with.
ghost use Rattle.std.specs.Prelude.{◌≡◌};
ghost use Rattle.yaml_spec.specs.Bytes.{first, is_blank, is_flow_indicator, is_gap};
ghost use Rattle.yaml_spec.specs.Flow.{starts_collection};
ghost use Rattle.yaml_spec.specs.Noted.{is_note};
ghost use Rattle.yaml_spec.specs.Openers.{starts_block};
ghost use Rattle.yaml_spec.specs.Quotes.{starts_quote};

use crate::white::skip_white;

/// The first byte, and 0 for a text without one.
pub fn first(text: &str) -> u8
    ensures { result ≡ first text.now }
{
    match text.as_bytes().first() {
        Some(byte) => *byte,
        None => 0,
    }
}

/// `, [ ] { }` (YAML 1.2.2, 5.3, rule 23).
pub fn is_flow_indicator(byte: u8) -> bool
    ensures { result ≡ is_flow_indicator byte }
{
    byte == b',' || byte == b'[' || byte == b']' || byte == b'{' || byte == b'}'
}

/// Whether the text is nothing but spaces and tabs.
pub fn is_blank(text: &str) -> bool
    ensures { result ≡ is_blank text.now }
{
    skip_white(text).is_empty()
}

/// Whether a space follows, or nothing but white space, or white space and a comment.
pub fn is_gap(text: &str) -> bool
    ensures { result ≡ is_gap text.now }
{
    if first(text) == b' ' {
        return true;
    }
    let rest = skip_white(text);
    rest.is_empty() || (first(text) == b'\t' && first(rest) == b'#')
}

/// Whether a single or double quote begins the text.
pub fn starts_quote(text: &str) -> bool
    ensures { result ≡ starts_quote text.now }
{
    first(text) == b'"' || first(text) == b'\''
}

/// Whether `[` or `{` begins the text.
pub fn starts_collection(text: &str) -> bool
    ensures { result ≡ starts_collection text.now }
{
    first(text) == b'[' || first(text) == b'{'
}

/// Whether `|` or `>` begins the text, as it begins a block scalar.
pub fn starts_block(text: &str) -> bool
    ensures { result ≡ starts_block text.now }
{
    first(text) == b'|' || first(text) == b'>'
}

/// Whether `#@` begins the text, as it begins a comment that is code.
pub fn is_note(text: &str) -> bool
    ensures { result ≡ is_note text.now }
{
    let bytes = text.as_bytes();
    bytes.len() > 1 && bytes[0] == b'#' && bytes[1] == b'@'
}
