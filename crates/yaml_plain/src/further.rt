// The lines below a plain scalar.
ghost use Rattle.std.specs.Prelude.{◌≡◌, ◌&&◌, ◌||◌, ◌==◌};
ghost use Rattle.yaml_spec.specs.Bytes.{colon, first, indent, is_white, skip_white};
ghost use Rattle.yaml_spec.specs.Plain.{ends_scalar, ends_with_colon};
ghost use Rattle.yaml_plain.specs.Lines.{further_line, further_of};

use crate::ends::{hangs, split_plain};
use yaml_text::{first, indent, is_blank, is_flow_indicator, skip_white};

/// What a line below a plain scalar is to it.
#[derive(Clone, Copy)]
pub enum Further<'a> {
    /// An empty line, which counts where the scalar goes on behind it.
    Empty,
    /// The scalar ended before it.
    Ends,
    /// It can't stand there: a key, or a part that ends in `:`.
    Wrong,
    /// A part of the scalar, and what stands behind it.
    GoesOn(&'a str, &'a str),
}

/// Whether a plain scalar ends on this line: a comment, less indent than `least`, or in brackets an
/// indicator at its start.
fn ends_scalar(in_flow: bool, least: usize, text: &str) -> bool
    ensures { result ≡ ends_scalar in_flow least text.now }
{
    let first = first(skip_white(text));
    if in_flow {
        return first == b'#' || is_flow_indicator(first);
    }
    first == b'#' || indent(text) < least
}

/// Whether a part with this behind it can't belong to a plain scalar that goes on: a key's colon, or
/// `:` at its end.
fn breaks_scalar(part: &str, behind: &str) -> bool
    ensures { result ≡ (first (skip_white behind.now) == colon || (ends_with_colon part.now && is_white (first behind.now))) }
{
    first(skip_white(behind)) == b':' || hangs(part, behind)
}

/// What a line below a plain scalar is to it.
pub fn look_further(in_flow: bool, least: usize, text: &str) -> Further<'_>
    ensures { further_of result ≡ further_line in_flow least text.now }
{
    if is_blank(text) {
        return Further::Empty;
    }
    if ends_scalar(in_flow, least, text) {
        return Further::Ends;
    }
    let (part, behind) = split_plain(in_flow, skip_white(text));
    if breaks_scalar(part, behind) {
        return Further::Wrong;
    }
    Further::GoesOn(part, behind)
}
