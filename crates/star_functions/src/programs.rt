// Files whose functions may be called.

use star_blocks::Block;

/// A file whose functions may be called: its number, and its block.
#[derive(Drop)]
pub struct FileBlock {
    pub file: u32,
    pub block: Block,
}
