// The literal style: where it fits, and its lines.
ghost use Rattle.std.specs.Prelude.{◌≡◌, ◌<◌, ◌∷◌, ◌&&◌, [], IfSome, MatchOption, chars, length, not, suc};
ghost use Rattle.std.specs.List.{list_all};
ghost use Rattle.yaml_spec.specs.Bytes.{first, is_white};
ghost use Rattle.yaml_spec.specs.Text.{are_trimmed, final_breaks, fits_literal, has_break, is_literal_char, last, literal_header, pieces};

use yaml_styles::is_shown;
use yaml_text::{first, is_white};

fn is_literal_char(c: char) -> bool
    ensures { result ≡ is_literal_char c }
{
    c == '\n' || c == '\t' || is_shown(c)
}

fn all_literal(text: &str) -> bool
    ensures { result ≡ list_all is_literal_char (chars text.now) }
{
    text.chars().all(|c| is_literal_char(c))
}

#[tactic(auto, using(yaml_styles::proofs::StyleTests::marks))]
fn has_break(text: &str) -> bool
    ensures { result ≡ has_break text.now }
{
    text.as_bytes().contains(&b'\n')
}

/// The line before the first break, and what stands behind it.
pub fn split_at_break(text: &str) -> Option<(&str, &str)>
    ensures pieces { MatchOption result (pieces text.now ≡ text.now ∷ []) (λ parts. pieces text.now ≡ parts.0.now ∷ pieces parts.1.now) }
    ensures shorter { IfSome result (λ parts. length parts.1.now < length text.now) }
{
    text.split_once('\n')
}

/// The last byte, or 0 where there is none.
#[tactic(auto, using(yaml_styles::proofs::StyleTests::lasts))]
fn last(text: &str) -> u8
    ensures { result ≡ last text.now }
{
    match text.as_bytes().split_last() {
        None => 0,
        Some((last, _)) => *last,
    }
}

fn is_trimmed(line: &str) -> bool
    ensures { result ≡ (not (is_white (first line.now)) && not (is_white (last line.now))) }
{
    !is_white(first(line)) && !is_white(last(line))
}

#[tactic(auto, using(crate::proofs::Pieces::trims))]
fn are_trimmed(text: &str) -> bool
    ensures { result ≡ are_trimmed (pieces text.now) }
{
    let mut rest = text;
    while let Some((line, below)) = split_at_break(rest) {
        if !is_trimmed(line) {
            return false;
        }
        rest = below;
    }
    is_trimmed(rest)
}

/// Whether the string reads back as itself in literal style.
#[tactic(auto, unfolding(yaml_spec::specs::Text::fits_literal))]
pub fn fits_literal(text: &str) -> bool
    ensures { result ≡ fits_literal text.now }
{
    has_break(text) && first(text) != b'\n' && all_literal(text) && are_trimmed(text)
}

/// The header of what stands before one break more.
#[tactic(auto, using(crate::proofs::Pieces::finals))]
fn header_before_break(text: &[u8]) -> &'static str
    ensures { result.now ≡ literal_header (suc (final_breaks (pieces text.now))) }
{
    match text.split_last() {
        None => "|+",
        Some((last, _)) => { if *last == b'\n' { "|+" } else { "|" } }
    }
}

/// The header of a literal: `|-` without a final break, `|` with one, `|+` with more.
#[tactic(auto, using(crate::proofs::Pieces::finals))]
pub fn literal_header(text: &str) -> &'static str
    ensures { result.now ≡ literal_header (final_breaks (pieces text.now)) }
{
    match text.as_bytes().split_last() {
        None => "|",
        Some((last, before)) => {
            if *last == b'\n' {
                header_before_break(before)
            } else {
                "|-"
            }
        }
    }
}
