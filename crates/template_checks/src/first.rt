// The first fault of rows.
ghost use Rattle.std.specs.Prelude.{◌≡◌, [], IfOk, None};
ghost use Rattle.template_events.specs.View.{rows_of};
ghost use Rattle.template_pass.specs.Levels.{fault_by_levels};
ghost use Rattle.template_checks.specs.Held.{wrong_of};
ghost use Rattle.template_checks.specs.Walk.{mark_levels};

use crate::ahead::{Ahead, look_ahead};
use crate::walk::{Walked, return_fault, walk};
use crate::wrong::{Wrong, earlier, first_of};
use sqlite_items::Items;
use std::alloc::Global;
use template_events::Row;
use ytt_base::text::Memory;

/// The first fault of rows, and where there is none the level of what each row puts between items.
#[derive(Drop)]
pub struct Checked {
    pub wrong: Option<Wrong>,
    pub levels: Items<usize>,
}

/// Looks for the first fault of rows.
pub fn first_fault(alloc: Global, file: u32, rows: &[Row]) -> Result<Checked, Memory>
    ensures fault { IfOk result (λ c. wrong_of c.wrong ≡ fault_by_levels file (rows_of file rows.now)) }
    ensures levels { IfOk result (λ c. wrong_of c.wrong ≡ None → c.levels ≡ mark_levels [] 0 (rows_of file rows.now)) }
{
    let Ahead {
        nexts,
        wrong: noted,
    } = look_ahead(alloc, file, rows)?;
    let Walked {
        flags,
        returned,
        stop,
        levels,
        left,
    } = walk(alloc, file, rows, nexts)?;
    let returning = return_fault(&flags, returned.as_slice());
    let wrong = first_of(earlier(stop, earlier(returning, noted)), left);
    Ok(Checked { wrong, levels })
}
