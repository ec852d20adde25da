// Tokens of a file.

use sqlite_items::Items;
use star_grammar::Token;

/// The tokens of a file's code, the text's end the last.
#[derive(Drop)]
pub struct Tokens {
    pub file: u32,
    pub tokens: Items<Token>,
}
