// Where the code of a text template begins and ends.
ghost use Rattle.std.specs.Prelude.{◌≡◌, ◌≤◌, ◌==◌, IfOk, length};
ghost use Rattle.text_template.specs.Cuts.{ClosesCode, CutsCode};
ghost use Rattle.text_template_spec.specs.TextPieces as spec;
ghost use Rattle.yaml_spec.specs.Bytes.{dash};
ghost use Rattle.yaml_spec.specs.Text.{last};

use std::alloc::Global;
use yaml_text::refusal;
use ytt_base::fault::{FaultKind, Place, Stop};

/// Whether a text has a mark, `(@`. Without one it stays as it is written.
pub fn is_templated(text: &str) -> bool
    ensures { result ≡ spec.is_templated text.now }
{
    text.contains("(@")
}

/// Whether a dash is the last byte of a text.
#[tactic(auto, using(crate::proofs::Cutting::lasts))]
fn ends_with_dash(text: &str) -> bool
    ensures { result ≡ (last text.now == dash) }
{
    match text.as_bytes().split_last() {
        None => false,
        Some((last, _)) => *last == b'-',
    }
}

/// The code that a text begins with, up to its first `@)`, and what stands behind that. The refusal is TextForm, where there is none, and
/// where a dash stands directly before it.
fn close_code(alloc: Global, code: &str, at: Place) -> Result<(&str, &str), Stop>
    ensures cut { ClosesCode at code.now result }
    ensures shorter { IfOk result (λ c. length c.1.now ≤ length code.now) }
{
    match code.split_once("@)") {
        None => Err(refusal(alloc, FaultKind::TextForm, at)),
        Some((code, behind)) => {
            if ends_with_dash(code) {
                return Err(refusal(alloc, FaultKind::TextForm, at));
            }
            Ok((code, behind))
        }
    }
}

/// The code of a mark, from behind its `(@`, and what stands behind the code. The refusal is TextForm, where no `=` follows the mark, and
/// where its code isn't closed.
pub(crate) fn cut_code(alloc: Global, marked: &str, at: Place) -> Result<(&str, &str), Stop>
    ensures cut { CutsCode at marked.now result }
    ensures shorter { IfOk result (λ c. length c.1.now ≤ length marked.now) }
{
    match marked.strip_prefix("=") {
        None => Err(refusal(alloc, FaultKind::TextForm, at)),
        Some(code) => close_code(alloc, code, at),
    }
}
