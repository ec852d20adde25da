// The lines that begin and end documents.
ghost use Rattle.std.specs.Prelude.{◌≡◌, ◌||◌, ◌<◌, ◌≤◌, ◌∷◌, [], drop, length, true};
ghost use Rattle.yaml_spec.specs.Bytes.{skip_white};
ghost use Rattle.yaml_spec.specs.Held.{plain_line, plain_lines};
ghost use Rattle.yaml_spec.specs.Read.{begins_with, is_start, is_stop, segments};

use yaml_text::{behind, is_gap, skip_white};
use ytt_base::line::Line;

/// Whether the text begins with three of this byte, which is ASCII, and a gap.
#[tactic(auto)]
fn begins_with(byte: u8, text: &str) -> bool
    requires { byte < 128 }
    ensures { result ≡ begins_with (byte ∷ byte ∷ byte ∷ []) text.now }
{
    let bytes = text.as_bytes();
    bytes.len() >= 3
        && bytes[0] == byte
        && bytes[1] == byte
        && bytes[2] == byte
        && is_gap(behind(text, 3))
}

/// Whether the line is `---`, which begins a document, and its end or a space (YAML 1.2.2, 9.1.2).
pub fn is_start(line: &Line) -> bool
    ensures { result ≡ is_start (plain_line line.now) }
{
    begins_with(b'-', line.text.as_str())
}

/// Whether the line is `...`, which ends a document, and its end or a space (YAML 1.2.2, 9.1.3).
pub fn is_stop(line: &Line) -> bool
    ensures { result ≡ is_stop (plain_line line.now) }
{
    begins_with(b'.', line.text.as_str())
}

/// Whether the line is a marker.
pub fn is_marker(line: &Line) -> bool
    ensures { result ≡ (is_start (plain_line line.now) || is_stop (plain_line line.now)) }
{
    is_start(line) || is_stop(line)
}

/// What stands behind a marker on its line, without white space at its start.
pub fn behind_marker(line: &Line) -> &str
    requires { (is_start (plain_line line.now) || is_stop (plain_line line.now)) ≡ true }
    ensures { result.now ≡ skip_white (drop 3 line.now.text) }
{
    skip_white(behind(line.text.as_str(), 3))
}

/// How many lines stand before the first marker.
pub fn front_len(lines: &[Line]) -> usize
    ensures len { let cut = segments (plain_lines lines.now) in result ≡ length cut.0 }
    ensures within { result ≤ length lines.now }
{
    for (at, line) in lines.iter().enumerate() {
        if is_marker(line) {
            return at;
        }
    }
    lines.len()
}
