//! Writes bytes in full, and says what was written if a write fails.

#![tactic(auto)]

ghost use Rattle.std.specs.Prelude.{IsTrue};
ghost use Rattle.std.specs.Io.KnownBytes.{Appends};
ghost use Rattle.reg_output.specs.Prefixes.{AppendsPrefix};

use std::io::{ErrorKind, Write};

/// Writes the bytes, and retries interrupted writes. Returns whether all were written; if not, a
/// beginning of them was.
pub fn write_whole<W: Write>(writer: &mut W, bytes: &[u8]) -> bool
    ensures front { AppendsPrefix (W.contents writer.old) (W.contents writer.new) bytes.now }
    ensures whole { IsTrue result → Appends (W.contents writer.old) (W.contents writer.new) bytes.now }
{
    let mut at = 0;
    for _ in 0..u64::MAX {
        if at == bytes.len() {
            return true;
        }
        match writer.write(&bytes[at..]) {
            Ok(0) => return false,
            Ok(n) => at += n,
            Err(error) if error.kind() == ErrorKind::Interrupted => {}
            Err(_) => return false,
        }
    }
    false
}
