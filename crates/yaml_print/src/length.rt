// The length of a text that isn't written.
ghost use Rattle.std.specs.Prelude.{◌≡◌, ◌-◌, ◌^◌, length, min};
ghost use Rattle.ytt_base.specs.View.{trees_of};
ghost use Rattle.yaml_spec.specs.Text.{Text};

use crate::print::write_documents;
use crate::put::Put;
use ytt_base::tree::Trees;

/// Counts the bytes that are put, up to `u64::MAX`.
#[derive(Drop)]
struct Length {
    bytes: u64,
}

impl Put for Length {
    ghost has = { λ _ l s. l.bytes ≡ min (length s) (2 ^ 64 - 1) };

    fn put(&mut self, piece: &str) {
        self.bytes = self.bytes.saturating_add(piece.len() as u64);
    }
}

/// How many bytes the text of the documents has. Past `u64::MAX` it is `u64::MAX`. It takes no
/// memory and writes nothing.
pub fn text_length(trees: &Trees) -> u64
    ensures { result ≡ min (length (Text (trees_of trees.now))) (2 ^ 64 - 1) }
{
    let mut length = Length { bytes: 0 };
    write_documents(trees.as_slice(), &mut length);
    length.bytes
}
