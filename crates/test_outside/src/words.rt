// The words of a command line.
ghost use Rattle.std.specs.Io.{WritesAtMost};

use std::env::FillError;
use std::rt::Env;
use std::test::Fail;
use ytt_outside::host_words::read_words;

/// A command line that is given, with the program's name.
#[derive(Clone, Copy)]
struct Given<'a>(&'a [&'a [u8]]);

fn fill(text: &[u8], buf: &mut [u8]) -> Result<usize, FillError>
    ensures { WritesAtMost result buf.new }
{
    if text.len() > buf.len() {
        return Err(FillError::TooLong);
    }
    buf[..text.len()].copy_from_slice(text);
    Ok(text.len())
}

impl Env for Given<'_> {
    fn arg(&self, i: usize, buf: &mut [u8]) -> Result<usize, FillError> {
        match self.0.get(i) {
            None => Err(FillError::NotPresent),
            Some(text) => fill(text, buf),
        }
    }

    fn var(&self, _name: &str, _buf: &mut [u8]) -> Result<usize, FillError> {
        Err(FillError::NotPresent)
    }

    fn var_at(&self, _i: usize, _buf: &mut [u8]) -> Result<usize, FillError> {
        Err(FillError::NotPresent)
    }
}

/// Whether these are the words that are due where one of them is this long one.
fn are_due(words: &[String], long: &[u8]) -> bool {
    match words {
        [first, odd, whole, empty, last] => {
            let is_read = first.as_str() == "render" && last.as_str() == "z";
            let are_empty = odd.as_str() == "" && empty.as_str() == "";
            is_read && are_empty && whole.as_bytes() == long
        }
        _ => false,
    }
}

/// A word that isn't UTF-8 stands as an empty one; a long one is read whole.
#[test]
fn words_are_read(rt: HostRuntime) -> Result<(), Fail> {
    let alloc = rt.alloc();
    let long = vec![in alloc; b'p'; 3000]?;
    let given: [&[u8]; 6] = [
        b"gingercrag",
        b"render",
        b"a\xFF",
        long.as_slice(),
        b"",
        b"z",
    ];
    let words = read_words(alloc, &Given(given.as_slice()))?;
    assert!(rt; are_due(words.as_slice(), long.as_slice()));
    Ok(())
}
