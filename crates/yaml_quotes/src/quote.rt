// Scalars in quotes at a place in a text.
ghost use Rattle.std.specs.Prelude.{◌≡◌, ◌==◌, ◌≤◌, IfOk, IfSome, drop, length, option_map, true};
ghost use Rattle.ytt_base.specs.Outcomes.{Gives};
ghost use Rattle.yaml_spec.specs.Bytes.{first, quote};
ghost use Rattle.yaml_spec.specs.Flow.{size};
ghost use Rattle.yaml_spec.specs.Quotes.{Quote, quote_on_line, starts_quote};
ghost use Rattle.yaml_text.specs.View.{cursor_of};

use crate::folding::Folded;
use crate::scan::{Scan, scan_line};
use std::alloc::Global;
use yaml_text::{Cursor, behind, first, refusal, skip_white};
use ytt_base::fault::{FaultKind, Place, Stop};
use ytt_base::text::{Memory, Text};

/// Whether the quote at the start of a text is a double one, and what stands behind it.
fn opening(text: &str) -> (bool, &str)
    requires { starts_quote text.now ≡ true }
    ensures double { result.0 ≡ (first text.now == quote) }
    ensures behind { result.1.now ≡ drop 1 text.now }
{
    (first(text) == b'"', behind(text, 1))
}

/// The string in quotes at an opening quote, and the place behind the closing one (YAML 1.2.2, 5.7
/// and 7.3). `open_place` is where a quote that nothing closes is told.
pub fn read_quote<'a>(
    alloc: Global,
    open_place: Place,
    cursor: Cursor<'a>,
) -> Result<(Text, Cursor<'a>), Stop>
    requires { starts_quote cursor.text.now ≡ true }
    ensures quote { Gives (λ r. (r.0, cursor_of r.1)) result (Quote open_place (cursor_of cursor.entry)) }
    ensures within { IfOk result (λ r. size (cursor_of r.1) ≤ size (cursor_of cursor.entry)) }
{
    let (is_double, rest) = opening(cursor.text);
    let mut here = Cursor {
        place: cursor.place,
        text: rest,
        below: cursor.below,
    };
    let mut folded = Folded::new(alloc);
    'lines: loop {
        match scan_line(alloc, is_double, here.text)? {
            Scan::Wrong => return Err(refusal(alloc, FaultKind::YamlForm, here.place)),
            Scan::Closed { text, behind } => {
                let end = Cursor {
                    place: here.place,
                    text: behind,
                    below: here.below,
                };
                return Ok((folded.finish(text.as_str())?, end));
            }
            Scan::Open { text, joined } => folded.add(text.as_str(), joined)?,
        }
        let Some((line, below)) = here.below.split_first() else {
            return Err(refusal(alloc, FaultKind::YamlForm, open_place));
        };
        here = Cursor {
            place: line.place,
            text: skip_white(line.text.as_str()),
            below,
        };
    }
}

/// The string in quotes that closes on its line, and what stands behind it; `None` where none closes
/// there, or an escape is wrong.
pub fn quote_on_line<'a>(alloc: Global, text: &'a str) -> Result<Option<(Text, &'a str)>, Memory>
    requires { starts_quote text.now ≡ true }
    ensures quote { IfOk result (λ o. option_map (λ q. (q.0, q.1.now)) o ≡ quote_on_line text.now) }
    ensures within { IfOk result (λ o. IfSome o (λ q. length q.1.now ≤ length text.now)) }
{
    let (is_double, rest) = opening(text);
    match scan_line(alloc, is_double, rest)? {
        Scan::Closed { text, behind } => Ok(Some((Text::of_string(text), behind))),
        Scan::Open { .. } | Scan::Wrong => Ok(None),
    }
}
