// The listing of a whole program.
ghost use Rattle.std.specs.Prelude.{◌≡◌, IfOk};
ghost use Rattle.listing_spec.specs.Listing.{listing};
ghost use Rattle.star_tree.specs.Whole.{program_of};

use crate::statements::push_instruction;
use star_tree::code::Program;
use std::alloc::Global;
use ytt_base::text::{Memory, Text};

/// The listing of a program: one instruction a line, in text order, the number of its line in the file first. Its only error is
/// want of memory.
pub fn listing(alloc: Global, program: &Program) -> Result<Text, Memory>
    ensures { IfOk result (λ t. t ≡ listing (program_of program.now)) }
{
    let mut out = String::new(alloc);
    for stmt in program.code.as_slice() {
        push_instruction(program.file, stmt, &mut out)?;
    }
    Ok(Text::of_string(out))
}
