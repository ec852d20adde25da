// A text that is being shown.

use std::alloc::Global;
use ytt_base::text::Memory;

/// A text that grows. Want of memory is told when it is taken.
#[derive(Drop)]
pub struct Shown {
    alloc: Global,
    text: String,
    is_short: bool,
}

impl Shown {
    /// No text yet.
    pub fn new(alloc: Global) -> Shown {
        Shown {
            alloc,
            text: String::new(alloc),
            is_short: false,
        }
    }

    /// Puts a text behind it.
    pub fn put(&mut self, text: &str) {
        if self.text.push_str(text).is_err() {
            self.is_short = true;
        }
    }

    /// Puts a number behind it.
    pub fn put_number(&mut self, n: i128) {
        match format!(in self.alloc; "{n}") {
            Ok(number) => self.put(number.as_str()),
            Err(_) => self.is_short = true,
        }
    }

    /// Puts a text in quotes behind it.
    pub fn put_quoted(&mut self, text: &str) {
        self.put("'");
        self.put(text);
        self.put("'");
    }

    /// The text. The error is want of memory.
    pub fn take(self) -> Result<String, Memory> {
        if self.is_short {
            return Err(Memory);
        }
        Ok(self.text)
    }
}

/// A text of a row, whose line ends are written `⏎`. The error is want of memory.
pub fn unfolded(alloc: Global, text: &str) -> Result<String, Memory> {
    let mut whole = String::new(alloc);
    for letter in text.chars() {
        whole.push(if letter == '⏎' { '\n' } else { letter })?;
    }
    Ok(whole)
}
