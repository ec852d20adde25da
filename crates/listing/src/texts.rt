// Texts and numbers, put behind what is listed.
ghost use Rattle.std.specs.Prelude.{◌≡◌, ◌∷◌, ◌++◌, OnOk, decimal, string_bytes};
ghost use Rattle.std.specs.Fmt.{signed_decimal};
ghost use Rattle.yaml_spec.specs.Bytes.{space};

use itoa::Buffer;
use ytt_base::text::Memory;

/// What is put behind what is listed; the only error is want of memory.
pub(crate) type Pushed = Result<(), Memory>;

/// Puts a text behind what is listed.
pub(crate) fn push(text: &str, out: &mut String) -> Pushed
    ensures { OnOk result (string_bytes out.new ≡ string_bytes out.old ++ text.now) }
{
    out.push_str(text)?;
    Ok(())
}

/// Puts a word behind a space.
pub(crate) fn push_word(word: &str, out: &mut String) -> Pushed
    ensures { OnOk result (string_bytes out.new ≡ string_bytes out.old ++ space ∷ word.now) }
{
    push(" ", out)?;
    push(word, out)
}

/// Puts an integer in decimal digits.
pub(crate) fn push_integer(number: i128, out: &mut String) -> Pushed
    ensures { OnOk result (string_bytes out.new ≡ string_bytes out.old ++ signed_decimal number) }
{
    let mut buffer = Buffer::new();
    push(buffer.format(number), out)
}

/// Puts the number of a line.
pub(crate) fn push_line(line: u32, out: &mut String) -> Pushed
    ensures { OnOk result (string_bytes out.new ≡ string_bytes out.old ++ decimal line) }
{
    let mut buffer = Buffer::new();
    push(buffer.format(line), out)
}
