// What a line holds of a quoted scalar.
ghost use Rattle.std.specs.Prelude.{◌≡◌, ◌≤◌, IfOk, drop, length, take};
ghost use Rattle.std.specs.List.{prefix_len};
ghost use Rattle.yaml_spec.specs.Quotes.{scan};
ghost use Rattle.yaml_quotes.specs.Turns.{LeavesWithin, is_plain};
ghost use Rattle.yaml_quotes.specs.View.{scan_of};

use crate::escapes::{Turn, turn_here};
use std::alloc::Global;
use yaml_text::trim_end;
use ytt_base::text::Memory;

/// What a line holds of a quoted scalar.
#[derive(Drop)]
pub enum Scan<'a> {
    /// The line ends before the closing quote; `joined` says that an escaped break ends it.
    Open { text: String, joined: bool },
    /// The closing quote, and the text behind it.
    Closed { text: String, behind: &'a str },
    /// A wrong escape.
    Wrong,
}

fn is_plain(is_double: bool, byte: u8) -> bool
    ensures { result ≡ is_plain is_double byte }
{
    if is_double {
        byte != b'"' && byte != b'\\'
    } else {
        byte != b'\''
    }
}

fn plain_len(is_double: bool, bytes: &[u8]) -> usize
    ensures len { result ≡ prefix_len (is_plain is_double) bytes.now }
    ensures within { result ≤ length bytes.now }
{
    bytes
        .iter()
        .take_while(|byte| is_plain(is_double, **byte))
        .count()
}

/// The bytes that stand for themselves, and what comes behind them.
fn split_plain(is_double: bool, text: &str) -> (&str, &str)
    ensures front { result.0.now ≡ take (prefix_len (is_plain is_double) text.now) text.now }
    ensures back { result.1.now ≡ drop (prefix_len (is_plain is_double) text.now) text.now }
{
    text.split_at(plain_len(is_double, text.as_bytes()))
}

/// What the line holds, from behind the opening quote or from its first character on, to the
/// closing quote or its end.
pub fn scan_line(alloc: Global, is_double: bool, line: &str) -> Result<Scan<'_>, Memory>
    ensures held { IfOk result (λ s. scan_of s ≡ scan is_double line.now) }
    ensures within { IfOk result (λ s. LeavesWithin (length line.now) (scan_of s)) }
{
    let mut text = String::new(alloc);
    let mut rest = line;
    'pieces: loop {
        let (plain, after) = split_plain(is_double, rest);
        match turn_here(is_double, after) {
            Turn::Char(character, behind) => {
                text.push_str(plain)?;
                text.push(character)?;
                rest = behind;
            }
            Turn::LineEnd { joined } => {
                text.push_str(if joined { plain } else { trim_end(plain) })?;
                return Ok(Scan::Open { text, joined });
            }
            Turn::Closed(behind) => {
                text.push_str(plain)?;
                return Ok(Scan::Closed { text, behind });
            }
            Turn::Wrong => return Ok(Scan::Wrong),
        }
    }
}
