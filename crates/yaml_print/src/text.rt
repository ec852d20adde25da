// The text of documents as a value.
ghost use Rattle.std.specs.Prelude.{◌≡◌, IfOk, false, string_bytes};
ghost use Rattle.ytt_base.specs.View.{trees_of};
ghost use Rattle.yaml_spec.specs.Text as printed;

use crate::print::write_documents;
use crate::put::Put;
use std::alloc::Global;
use ytt_base::text::{Memory, Text};
use ytt_base::tree::Trees;

/// A text that takes its room as it grows. It fails only for want of memory.
#[derive(Drop)]
struct Growing {
    text: String,
    failed: bool,
}

impl Put for Growing {
    ghost has = { λ _ g s. g.failed ≡ false → string_bytes g.text ≡ s };

    fn put(&mut self, piece: &str) {
        if !self.failed {
            self.failed = self.text.push_str(piece).is_err();
        }
    }
}

/// The text of the documents. Its only error is want of memory.
pub fn print_text(alloc: Global, trees: &Trees) -> Result<Text, Memory>
    ensures { IfOk result (λ t. t ≡ printed.Text (trees_of trees.now)) }
{
    let mut out = Growing {
        text: String::new(alloc),
        failed: false,
    };
    write_documents(trees.as_slice(), &mut out);
    if out.failed {
        return Err(Memory);
    }
    Ok(Text::of_string(out.text))
}
