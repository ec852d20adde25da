// Where a text and its lines begin and end.
ghost use Rattle.std.specs.Prelude.{◌≡◌, ◌<◌, ◌≤◌, ◌∷◌, length};
ghost use Rattle.yaml_spec.specs.Lines.{cut, skip_mark};
ghost use Rattle.yaml_lines.specs.Ends.{without_return};

/// The text without the byte order mark at its start (YAML 1.2.2, 5.2).
pub fn skip_mark(text: &[u8]) -> &[u8]
    ensures mark { result.now ≡ skip_mark text.now }
    ensures within { length result.now ≤ length text.now }
{
    match text {
        [0xEF, 0xBB, 0xBF, rest @ ..] => rest,
        _ => text,
    }
}

/// What stands before a line feed, without the carriage return at its end.
#[tactic(auto, using(crate::proofs::Breaks::returns))]
fn without_return(line: &[u8]) -> &[u8]
    ensures line { result.now ≡ without_return line.now }
    ensures within { length result.now ≤ length line.now }
{
    match line.split_last() {
        None => line,
        Some((last, rest)) => { if *last == b'\r' { rest } else { line } }
    }
}

/// The first line, and what stands behind its end.
#[tactic(auto, using(crate::proofs::Breaks::ends))]
pub fn split_line(text: &[u8]) -> (&[u8], &[u8])
    requires { 0 < length text.now }
    ensures lines { cut text.now ≡ result.0.now ∷ cut result.1.now }
    ensures within { length result.0.now ≤ length text.now }
    ensures shorter { length result.1.now < length text.now }
{
    for (end, byte) in text.iter().enumerate() {
        if *byte == b'\n' {
            return (without_return(&text[..end]), &text[end + 1..]);
        }
    }
    (text, &text[text.len()..])
}
