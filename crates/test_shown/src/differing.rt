// Rows that give another answer than is due.

use crate::shown::Shown;
use std::alloc::Global;
use ytt_base::text::Memory;

/// A line for each row whose answer is another than is due.
#[derive(Drop)]
pub struct Differing {
    lines: Shown,
}

impl Differing {
    /// No row yet.
    pub fn new(alloc: Global) -> Differing {
        Differing {
            lines: Shown::new(alloc),
        }
    }

    /// Compares the answer of a row with what is due.
    pub fn compare(&mut self, row: &str, is: &str, due: &str) {
        if is != due {
            for text in ["<", row, "> is <", is, "> and not <", due, ">\n"] {
                self.lines.put(text);
            }
        }
    }

    /// The lines, none where no row differs. The error is want of memory.
    pub fn take(self) -> Result<String, Memory> {
        self.lines.take()
    }
}
