// The words of the machine's command line.
ghost use Rattle.std.specs.Prelude.{◌≡◌, [], IsUtf8, string_bytes};

use std::alloc::{AllocError, Global};
use std::env::FillError;
use std::rt::Env;

/// The bytes as text, or an empty text where they are no UTF-8.
fn text_or_empty(alloc: Global, bytes: Vec<u8>) -> String
    ensures text { IsUtf8 bytes.items → string_bytes result ≡ bytes.items }
    ensures other { (IsUtf8 bytes.items → ⊥) → string_bytes result ≡ [] }
{
    match String::from_utf8(bytes) {
        Ok(text) => text,
        Err(_) => String::new(alloc),
    }
}

/// The word of this number, or `None` behind the last one.
fn read_word(alloc: Global, env: &impl Env, number: usize) -> Result<Option<String>, AllocError> {
    let mut capacity = 1024usize;
    for _ in 0..usize::BITS {
        let mut bytes = vec![in alloc; 0u8; capacity]?;
        match env.arg(number, &mut bytes) {
            Ok(len) => {
                bytes.truncate(len);
                return Ok(Some(text_or_empty(alloc, bytes)));
            }
            Err(FillError::NotPresent) => return Ok(None),
            Err(FillError::TooLong) => capacity = capacity.saturating_add(capacity),
        }
    }
    Err(AllocError)
}

/// The words behind the program's name, which is word 0, in their order. A word that is no UTF-8
/// stands as an empty one, which no request has. Its only error is want of memory.
///
/// What an `Env` holds isn't told, so no clause says which words these are.
pub fn read_words(alloc: Global, env: &impl Env) -> Result<Vec<String>, AllocError> {
    let mut words = Vec::new(alloc);
    for number in 1..usize::MAX {
        match read_word(alloc, env, number)? {
            Some(word) => words.push(word)?,
            None => break,
        }
    }
    Ok(words)
}
