// The spaces at the start of a line.
ghost use Rattle.std.specs.Prelude.{◌≡◌, ◌==◌, ◌≤◌, length};
ghost use Rattle.std.specs.List.{prefix_len};
ghost use Rattle.yaml_spec.specs.Bytes.{indent, space};

fn is_space(byte: u8) -> bool
    ensures { result ≡ (byte == space) }
{
    byte == b' '
}

fn space_len(bytes: &[u8]) -> usize
    ensures len { result ≡ prefix_len (λ b. b == space) bytes.now }
    ensures within { result ≤ length bytes.now }
{
    bytes.iter().take_while(|byte| is_space(**byte)).count()
}

/// The number of leading spaces.
#[tactic(auto, using(crate::proofs::Indents::spaces))]
pub fn indent(text: &str) -> usize
    ensures indent { result ≡ indent text.now }
    ensures within { result ≤ length text.now }
{
    space_len(text.as_bytes())
}
