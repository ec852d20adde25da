// A document's lines with the marker before them.
ghost use Rattle.std.specs.Prelude.{◌≡◌, ◌<◌, ◌≤◌, ◌∷◌, [], length, MatchOption};
ghost use Rattle.yaml_spec.specs.Held.{plain_lines};
ghost use Rattle.yaml_spec.specs.Read.{first_marker, segments};
ghost use Rattle.yaml_read.specs.Lines.{FitLines};
ghost use Rattle.yaml_read.specs.Segments.{BeginsWithMarker, FitSegment, segment_of};

use crate::markers::front_len;
use ytt_base::line::Line;

/// A marker, the lines up to the next one, and the lines from that on.
#[derive(Clone, Copy)]
pub struct Segment<'a> {
    pub marker: &'a Line,
    pub lines: &'a [Line],
    /// The line of the next marker, or 0.
    pub stop: u32,
    pub next: &'a [Line],
}

/// The line of the first marker of lines that begin with it, and 0 for no lines.
#[tactic(auto)]
pub fn first_line(lines: &[Line]) -> u32
    requires { BeginsWithMarker lines.now }
    ensures { let cut = segments (plain_lines lines.now) in result ≡ first_marker cut.1 }
{
    match lines.split_first() {
        Some((line, _)) => line.place.line,
        None => 0,
    }
}

/// The lines before the first marker, and those from it on.
#[tactic(auto)]
pub fn split_front(lines: &[Line]) -> (&[Line], &[Line])
    ensures front { let cut = segments (plain_lines lines.now) in plain_lines result.0.now ≡ cut.0 }
    ensures next { let cut = segments (plain_lines lines.now) in let more = segments (plain_lines result.1.now) in more.1 ≡ cut.1 }
    ensures marked { BeginsWithMarker result.1.now }
    ensures fits { FitLines (plain_lines lines.now) → FitLines (plain_lines result.0.now) × FitLines (plain_lines result.1.now) }
    ensures shorter { length result.0.now ≤ length lines.now }
    ensures rest_shorter { length result.1.now ≤ length lines.now }
{
    lines.split_at(front_len(lines))
}

/// The first segment of lines that begin with a marker, or `None` for no lines.
#[tactic(auto)]
pub fn split_segment(lines: &[Line]) -> Option<Segment<'_>>
    requires marked { BeginsWithMarker lines.now }
    requires fits { FitLines (plain_lines lines.now) }
    ensures segment { let cut = segments (plain_lines lines.now) in MatchOption result (cut.1 ≡ []) (λ s. let more = segments (plain_lines s.next.now) in cut.1 ≡ segment_of s ∷ more.1) }
    ensures marked { MatchOption result (lines.now ≡ []) (λ s. BeginsWithMarker s.next.now) }
    ensures fits { MatchOption result (lines.now ≡ []) (λ s. FitSegment s) }
    ensures shorter { MatchOption result (lines.now ≡ []) (λ s. length s.next.now < length lines.now) }
{
    let Some((marker, below)) = lines.split_first() else {
        return None;
    };
    let (within, next) = split_front(below);
    Some(Segment {
        marker,
        lines: within,
        stop: first_line(next),
        next,
    })
}
