//! The names of files, as standard error shows them.

ghost use Rattle.std.specs.Prelude.{◌≡◌, ◌<◌};
ghost use Rattle.reg_jobs.specs.Errors.{Puts};
ghost use Rattle.reg_jobs.specs.Names.{hex_digit, shown_name, shown_byte, HasNoControl};

use crate::errors::ErrorWriter;
use std::io::Write;

/// The hexadecimal digit of a number below 16.
fn hex_digit(n: u8) -> u8
    requires { n < 16 }
    ensures { result ≡ hex_digit n }
{
    b"0123456789abcdef"[usize::from(n)]
}

/// Writes a byte of a name, or the escape of an ASCII control character.
fn put_byte<E: Write + Drop>(errors: &mut ErrorWriter<E>, byte: u8)
    ensures { Puts E.contents errors.old errors.new (shown_byte byte) }
{
    if !byte.is_ascii_control() {
        errors.put(&[byte]);
        return;
    }
    match byte {
        b'\t' => errors.put(b"\\t"),
        b'\n' => errors.put(b"\\n"),
        b'\r' => errors.put(b"\\r"),
        _ => {
            let (high, low) = (hex_digit(byte / 16), hex_digit(byte % 16));
            errors.put(&[b'\\', b'u', b'{', high, low, b'}']);
        }
    }
}

/// Writes a file's name, with each ASCII control character as its escape, so that it can't end the
/// line.
pub fn put_name<E: Write + Drop>(errors: &mut ErrorWriter<E>, name: &str)
    ensures puts { Puts E.contents errors.old errors.new (shown_name name.now) }
    ensures no_control { HasNoControl (shown_name name.now) }
    ensures same { HasNoControl name.now → shown_name name.now ≡ name.now }
{
    for byte in name.as_bytes() {
        put_byte(errors, *byte);
    }
}
