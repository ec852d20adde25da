// Why a call gave nothing.

use std::alloc::Global;
use ytt_base::fault::Stop;
use ytt_base::report::fault_text;
use ytt_base::text::{Memory, Names, Text};

/// The line of a fault, where the files are `a.yml`, `b.yml` and `c.yml`, or `out of memory`. The error
/// is want of memory.
pub fn shown_stop(alloc: Global, stop: &Stop) -> Result<String, Memory> {
    let Stop::Fault(fault) = stop else {
        return Ok(String::from_str(alloc, "out of memory")?);
    };
    let mut names: Names = Names::new(alloc);
    for name in ["a.yml", "b.yml", "c.yml"] {
        names.push(Text::of(alloc, name)?)?;
    }
    let line = fault_text(alloc, fault, &names)?;
    Ok(String::from_str(alloc, line.as_str().trim_end())?)
}
