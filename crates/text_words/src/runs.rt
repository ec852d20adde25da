// Runs of bytes at the ends of a text.
ghost use Rattle.std.specs.Prelude.{◌≡◌, ◌≤◌, length, reverse};
ghost use Rattle.std.specs.List.{prefix_len};
ghost use Rattle.text_spec.specs.Classes.{behind, front};
ghost use Rattle.text_words.specs.Ends.{turned};
ghost use Rattle.text_words.specs.Tests.{run_test};

use crate::class::is_space;

/// An end of a text.
#[derive(Clone, Copy)]
pub enum End {
    Front,
    Back,
}

/// What a run is made of.
#[derive(Clone, Copy)]
pub enum Run {
    /// White space of ASCII.
    Space,
    /// All but white space.
    Word,
    /// All but LF and CR.
    Line,
}

impl Run {
    fn has(self, byte: u8) -> bool
        ensures { result ≡ run_test self byte }
    {
        match self {
            Run::Space => is_space(byte),
            Run::Word => !is_space(byte),
            Run::Line => !(byte == b'\n' || byte == b'\r'),
        }
    }
}

/// How many bytes of such a run stand at the front.
fn front_len(run: Run, bytes: &[u8]) -> usize
    ensures len { result ≡ prefix_len (run_test run) bytes.now }
    ensures within { result ≤ length bytes.now }
{
    bytes.iter().take_while(|byte| run.has(**byte)).count()
}

/// How many bytes of such a run stand at the end.
fn back_len(run: Run, bytes: &[u8]) -> usize
    ensures len { result ≡ prefix_len (run_test run) (reverse bytes.now) }
    ensures within { result ≤ length bytes.now }
{
    bytes
        .iter()
        .rev()
        .take_while(|byte| run.has(**byte))
        .count()
}

/// The run at an end of a text, and the rest of the text.
pub fn split_run(end: End, run: Run, text: &str) -> (&str, &str)
    ensures part { turned end result.0.now ≡ front (run_test run) (turned end text.now) }
    ensures rest { turned end result.1.now ≡ behind (run_test run) (turned end text.now) }
{
    match end {
        End::Front => text.split_at(front_len(run, text.as_bytes())),
        End::Back => {
            let (rest, part) = text.split_at(text.len() - back_len(run, text.as_bytes()));
            (part, rest)
        }
    }
}
