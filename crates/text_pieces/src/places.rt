// Where a text that isn't empty occurs among bytes.
ghost use Rattle.std.specs.Prelude.{◌≡◌, ◌+◌, ◌<◌, ◌≤◌, IfSome, length};
ghost use Rattle.text_spec.specs.Places.{first_place, last_place};

use memchr::memmem;

/// The first place at which a text occurs.
pub fn first_place(part: &str, text: &[u8]) -> Option<usize>
    requires { 0 < length part.now }
    ensures place { result ≡ first_place part.now text.now }
    ensures within { IfSome result (λ i. i + length part.now ≤ length text.now) }
{
    memmem::find(text, part.as_bytes())
}

/// The last place at which a text occurs.
pub fn last_place(part: &str, text: &[u8]) -> Option<usize>
    requires { 0 < length part.now }
    ensures place { result ≡ last_place part.now text.now }
    ensures within { IfSome result (λ i. i + length part.now ≤ length text.now) }
{
    memmem::rfind(text, part.as_bytes())
}
