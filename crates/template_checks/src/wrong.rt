// What is wrong, and where.
ghost use Rattle.std.specs.Prelude.{◌≡◌, ℕ, List};
ghost use Rattle.ytt_base.specs.Outcomes.{fault_at};
ghost use Rattle.ytt_base.specs.declared.fault.Stop.TheVariants as stop;
ghost use Rattle.template_spec.specs.Misplaced.{fault_on, unless};
ghost use Rattle.template_spec.specs.OpenBlocks.{first_of};
ghost use Rattle.template_checks.specs.Held.{fault_by, wrong_of};
ghost use Rattle.template_checks.specs.Walk.{earlier};

use std::alloc::Global;
use ytt_base::fault::{Fault, FaultKind, Place, Stop};
use ytt_base::text::Text;

/// A fault without a detail.
#[derive(Clone, Copy)]
pub struct Wrong {
    pub kind: FaultKind,
    pub place: Place,
}

/// A fault on a line, unless the place is right.
pub fn unless(right: bool, kind: FaultKind, file: u32, line: u32) -> Option<Wrong>
    ensures { wrong_of result ≡ unless right (fault_on file kind line) }
{
    if right {
        return None;
    }
    Some(Wrong {
        kind,
        place: Place { file, line },
    })
}

/// The one that stands at the lesser line, and else the first.
pub fn earlier(first: Option<Wrong>, second: Option<Wrong>) -> Option<Wrong>
    ensures { wrong_of result ≡ earlier (wrong_of first) (wrong_of second) }
{
    match first {
        None => second,
        Some(one) => match second {
            None => Some(one),
            Some(other) => {
                if other.place.line < one.place.line {
                    Some(other)
                } else {
                    Some(one)
                }
            }
        },
    }
}

pub fn first_of(first: Option<Wrong>, second: Option<Wrong>) -> Option<Wrong>
    ensures { wrong_of result ≡ first_of (wrong_of first) (wrong_of second) }
{
    match first {
        None => second,
        Some(one) => Some(one),
    }
}

pub fn stop_at(alloc: Global, wrong: Wrong) -> Stop
    ensures { result ≡ stop.Fault (fault_by wrong) }
{
    Stop::Fault(Fault {
        kind: wrong.kind,
        place: Some(wrong.place),
        detail: Text::new(alloc),
    })
}
