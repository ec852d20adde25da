// What comes behind each row.
ghost use Rattle.std.specs.Prelude.{◌≡◌, ℕ, IfOk, List, map as each, reverse};
ghost use Rattle.template_events.specs.View.{rows_of};
ghost use Rattle.template_pass.specs.Levels.{note_faults};
ghost use Rattle.template_spec.specs.Misplaced.{earliest};
ghost use Rattle.template_checks.specs.Held.{wrong_of};
ghost use Rattle.template_checks.specs.Walk.{nexts_of};

use crate::faults::{lost_before, next_before, note_fault};
use crate::wrong::{Wrong, earlier};
use sqlite_items::Items;
use std::alloc::Global;
use template_events::Row;
use ytt_base::text::Memory;

/// The level of the item that comes next behind each row, if one comes, that of the first row last; and the first fault of a note.
#[derive(Drop)]
pub struct Ahead {
    pub nexts: Items<Option<usize>>,
    pub wrong: Option<Wrong>,
}

/// Looks at the rows from the last one to the first.
pub fn look_ahead(alloc: Global, file: u32, rows: &[Row]) -> Result<Ahead, Memory>
    ensures nexts { IfOk result (λ a. reverse a.nexts ≡ nexts_of (rows_of file rows.now)) }
    ensures notes { IfOk result (λ a. wrong_of a.wrong ≡ earliest (note_faults file (rows_of file rows.now))) }
{
    let mut nexts = Items::new(alloc);
    let mut wrong = None;
    let mut next = None;
    let mut lost = true;
    let mut lost_data = true;
    for at in (0..rows.len()).rev() {
        let row = &rows[at];
        nexts.push(next)?;
        wrong = earlier(note_fault(file, row, lost, lost_data), wrong);
        lost = lost_before(false, row, lost);
        lost_data = lost_before(true, row, lost_data);
        next = next_before(row, next);
    }
    Ok(Ahead { nexts, wrong })
}
