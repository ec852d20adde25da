// Bytes of a text, from its front on.
ghost use Rattle.std.specs.Prelude.{◌≡◌, slice_index, drop, take};

/// The byte at a place of a text, 0 behind its end.
pub fn byte(text: &[u8], at: usize) -> u8
    ensures { result ≡ slice_index text.now at }
{
    match text.get(at) {
        Some(byte) => *byte,
        None => 0,
    }
}

/// The text behind so many bytes.
pub fn behind(text: &[u8], size: usize) -> &[u8]
    ensures { result.now ≡ drop size text.now }
{
    match text.get(size..) {
        Some(rest) => rest,
        None => &[],
    }
}

/// So many bytes of the front, or all.
pub fn before(text: &[u8], size: usize) -> &[u8]
    ensures { result.now ≡ take size text.now }
{
    match text.get(..size) {
        Some(front) => front,
        None => text,
    }
}
