//! Retry keys.

ghost use Rattle.std.specs.Prelude.{◌≡◌, SomeIff};
ghost use Rattle.reg_core.specs.Keys.{is_key_byte, IsKey};

use std::marker::Model;

/// The most bytes of a retry key.
const MAX_KEY_LENGTH: usize = 64;

/// A retry key, which identifies one delivery and its retries. It borrows its text. Contracts see
/// the bytes.
#[derive(Debug, Drop)]
pub struct Key<'a> {
    text: &'a str,
}

impl<'a> Model for Key<'a> {
    ghost use Rattle.std.specs.Prelude.{ℕ, List};
    ghost use Rattle.reg_core.specs.Keys.{IsKey};

    ghost Value = { List ℕ };

    ghost view = { λ key. key.text.now };

    ghost invariant = { λ key. IsKey key.text.now };
}

fn is_key_byte(byte: u8) -> bool
    ensures { result ≡ is_key_byte byte }
{
    byte.is_ascii_alphanumeric() || byte == b'.' || byte == b'_' || byte == b'-'
}

impl<'a> Key<'a> {
    /// The key with this text, or `None` unless the text has 1 to 64 bytes, each an ASCII letter, a
    /// digit, `.`, `_` or `-`.
    pub fn parse(text: &'a str) -> Option<Key<'a>>
        ensures { SomeIff result (IsKey text.now) text.now }
    {
        let bytes = text.as_bytes();
        if bytes.is_empty() || bytes.len() > MAX_KEY_LENGTH {
            return None;
        }
        if bytes.iter().all(|byte| is_key_byte(*byte)) {
            Some(Key { text })
        } else {
            None
        }
    }

    /// The key's text.
    pub fn as_str(&self) -> &str
        ensures text { result.now ≡ self.now }
        ensures key { IsKey result.now }
    {
        self.text
    }
}
