// Where plain scalars end on a line.
ghost use Rattle.std.specs.Prelude.{◌≡◌, ◌+◌, ◌<◌, ◌&&◌, drop, length, slice_index, take, true};
ghost use Rattle.std.specs.Str.{IsCharBoundary};
ghost use Rattle.yaml_spec.specs.Bytes.{first, is_white};
ghost use Rattle.yaml_spec.specs.Plain.{behind, ends_before, ends_with_colon, part, span};

use yaml_text::{behind, first, is_flow_indicator, is_gap, is_white, trim_end};

/// Whether a plain scalar ends before the byte at an index. `white` says that white space or the
/// line's start stands before it.
fn ends_at(in_flow: bool, white: bool, text: &str, at: usize) -> bool
    requires { at < length text.now }
    ensures ends { result ≡ ends_before in_flow white (slice_index text.now at) (drop (at + 1) text.now) }
    ensures ascii { result ≡ true → slice_index text.now at < 128 }
{
    let byte = text.as_bytes()[at];
    match byte {
        b'#' => white,
        b':' => {
            let rest = behind(text, at + 1);
            is_gap(rest) || (in_flow && is_flow_indicator(first(rest)))
        }
        _ => in_flow && is_flow_indicator(byte),
    }
}

/// The number of bytes up to where a plain scalar at the start of a line ends.
#[tactic(auto, using(crate::proofs::Spans::spans))]
fn span_len(in_flow: bool, text: &str) -> usize
    ensures span { take result text.now ≡ span in_flow true text.now }
    ensures cut { IsCharBoundary text.now result }
{
    let mut white = true;
    for (at, byte) in text.as_bytes().iter().enumerate() {
        if ends_at(in_flow, white, text, at) {
            return at;
        }
        white = is_white(*byte);
    }
    text.len()
}

/// The part of a line that a plain scalar at its start takes, without white space at its end, and
/// what stands behind it (YAML 1.2.2, 7.3.3).
#[tactic(auto, using(crate::proofs::Spans::spans))]
pub fn split_plain(in_flow: bool, text: &str) -> (&str, &str)
    ensures part { result.0.now ≡ part in_flow text.now }
    ensures behind { result.1.now ≡ behind in_flow text.now }
{
    let part = trim_end(&text[..span_len(in_flow, text)]);
    text.split_at(part.len())
}

#[tactic(auto, using(crate::proofs::Spans::colons))]
fn ends_with_colon(text: &str) -> bool
    ensures { result ≡ ends_with_colon text.now }
{
    match text.as_bytes().last() {
        Some(byte) => *byte == b':',
        None => false,
    }
}

/// Whether a part of a line ends in `:` before white space, as no scalar and no key does.
pub fn hangs(part: &str, behind: &str) -> bool
    ensures { result ≡ (ends_with_colon part.now && is_white (first behind.now)) }
{
    ends_with_colon(part) && is_white(first(behind))
}
