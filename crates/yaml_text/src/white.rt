// White space at the ends of a text.
ghost use Rattle.std.specs.Prelude.{◌≡◌, ◌-◌, ◌<◌, ◌≤◌, drop, length, slice_index};
ghost use Rattle.std.specs.List.{prefix_len};
ghost use Rattle.yaml_spec.specs.Bytes.{is_white, skip_white, trim_end};

pub fn is_white(byte: u8) -> bool
    ensures { result ≡ is_white byte }
{
    byte == b' ' || byte == b'\t'
}

fn white_len(bytes: &[u8]) -> usize
    ensures len { result ≡ prefix_len is_white bytes.now }
    ensures within { result ≤ length bytes.now }
{
    bytes.iter().take_while(|byte| is_white(**byte)).count()
}

/// What stands behind the first `count` bytes, of which the last is ASCII.
pub fn behind(text: &str, count: usize) -> &str
    requires some { 0 < count }
    requires within { count ≤ length text.now }
    requires ascii { slice_index text.now (count - 1) < 128 }
    ensures { result.now ≡ drop count text.now }
{
    &text[count..]
}

/// The text without the spaces and tabs at its start.
pub fn skip_white(text: &str) -> &str
    ensures { result.now ≡ skip_white text.now }
{
    &text[white_len(text.as_bytes())..]
}

/// The text without the spaces and tabs at its end.
pub fn trim_end(text: &str) -> &str
    ensures { result.now ≡ trim_end text.now }
{
    let bytes = text.as_bytes();
    let mut end = bytes.len();
    while end > 0 && is_white(bytes[end - 1]) {
        end -= 1;
    }
    &text[..end]
}
