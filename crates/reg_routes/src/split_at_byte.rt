//! Splits bytes at the first separator.

ghost use Rattle.std.specs.Prelude.{◌≡◌, ◌<◌, ◌==◌, IfSome, length, position};
ghost use Rattle.std.specs.List.{after_first, before_first};

/// The position of the first such byte, or `None`.
fn position_of(bytes: &[u8], byte: u8) -> Option<usize>
    ensures value { result ≡ position (λ b. b == byte) bytes.now }
    ensures within { IfSome result (λ at. at < length bytes.now) }
{
    bytes.iter().position(|b| *b == byte)
}

/// The bytes before and after the first such byte. Without one: all bytes, and none.
pub fn split_at_byte(bytes: &[u8], byte: u8) -> (&[u8], &[u8])
    ensures before { result.0.now ≡ before_first (λ b. b == byte) bytes.entry.now }
    ensures after { result.1.now ≡ after_first (λ b. b == byte) bytes.entry.now }
{
    match position_of(bytes, byte) {
        None => (bytes, &[]),
        Some(at) => (&bytes[..at], &bytes[at + 1..]),
    }
}
