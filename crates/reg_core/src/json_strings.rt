//! Texts as JSON strings, byte by byte.

ghost use Rattle.std.specs.Prelude.{◌≡◌, ◌+◌, ◌-◌, ◌<◌, ◌≤◌, ◌==◌, ◌||◌, true, [], ◌∷◌, ◌++◌, drop, length, nat_lt, string_bytes, take, vec_capacity, vec_len, IfOk, IfSome, IsTrue};
ghost use Rattle.json.specs.Print.{escape, escape_byte, quoted};

use serde_json::Value;
use std::alloc::{AllocError, Global};

/// Whether a byte of a JSON string must be escaped. (RFC 8259, section 7.)
fn needs_escape(byte: u8) -> bool
    ensures { result ≡ (byte == 34 || (byte == 92 || nat_lt byte 32)) }
{
    byte == b'"' || byte == b'\\' || byte < b' '
}

/// Whether these bytes are `\"` or `\\`, so that they spell the second.
fn is_escape(first: u8, second: u8) -> bool
    ensures { IsTrue result → escape_byte second ≡ first ∷ second ∷ [] }
{
    first == b'\\' && (second == b'"' || second == b'\\')
}

/// Appends the escape of a quotation mark or a backslash. For a control character, appends nothing
/// and returns false.
fn push_mark(out: &mut Vec<u8>, byte: u8) -> bool
    requires mark { (byte == 34 || (byte == 92 || nat_lt byte 32)) ≡ true }
    requires room { vec_len out.old + 2 ≤ vec_capacity out.old }
    ensures written { IsTrue result → out.new.items ≡ out.old.items ++ escape_byte byte }
    ensures room { vec_len out.new ≤ vec_len out.old + 2 }
    ensures capacity { vec_capacity out.new ≡ vec_capacity out.old }
{
    if byte < b' ' {
        return false;
    }
    out.push_reserved(b'\\');
    out.push_reserved(byte);
    true
}

/// Appends the byte, escaped if it must be. For a control character, appends nothing and returns
/// false.
fn push_escaped(out: &mut Vec<u8>, byte: u8) -> bool
    requires { vec_len out.old + 2 ≤ vec_capacity out.old }
    ensures written { IsTrue result → out.new.items ≡ out.old.items ++ escape_byte byte }
    ensures room { vec_len out.new ≤ vec_len out.old + 2 }
    ensures capacity { vec_capacity out.new ≡ vec_capacity out.old }
{
    if needs_escape(byte) {
        return push_mark(out, byte);
    }
    out.push_reserved(byte);
    true
}

/// The bytes as a JSON string, or `None` if there is a control character among them.
fn quoted_bytes(alloc: Global, bytes: &[u8]) -> Result<Option<Vec<u8>>, AllocError>
    ensures { IfOk result (λ found. IfSome found (λ out. out.items ≡ quoted bytes.now)) }
{
    let mut out = Vec::with_capacity(alloc, bytes.len() + bytes.len() + 1)?;
    out.push_reserved(b'"');
    for byte in bytes {
        if !push_escaped(&mut out, *byte) {
            return Ok(None);
        }
    }
    out.push(b'"')?;
    Ok(Some(out))
}

/// Any text as a JSON string, by `serde_json`.
fn quoted_by_serde(alloc: Global, text: &str) -> Result<String, AllocError>
    ensures { IfOk result (λ s. string_bytes s ≡ quoted text.now) }
{
    Value::String(String::from_str(alloc, text)?).to_string(alloc)
}

/// A text as a JSON string, with its quotation marks. A text with characters below U+0020 is left to
/// `serde_json`; no identity text has any.
///
/// # Errors
///
/// `AllocError` if an allocation fails.
pub fn quoted(alloc: Global, text: &str) -> Result<String, AllocError>
    ensures { IfOk result (λ s. string_bytes s ≡ quoted text.now) }
{
    let Some(bytes) = quoted_bytes(alloc, text.as_bytes())? else {
        return quoted_by_serde(alloc, text);
    };
    match String::from_utf8(bytes) {
        Ok(string) => Ok(string),
        Err(_) => quoted_by_serde(alloc, text),
    }
}

/// The byte that the escape at `at` spells, and the place after it. `None` unless it is `\"` or
/// `\\`.
fn read_escape(escaped: &[u8], at: usize) -> Option<(u8, usize)>
    requires { at < length escaped.now }
    ensures next { IfSome result (λ read. (at < read.1) × (read.1 ≤ length escaped.now)) }
    ensures spelled { IfSome result (λ read. escape_byte read.0 ≡ take (read.1 - at) (drop at escaped.now)) }
{
    if escaped.len() - at < 2 {
        return None;
    }
    if is_escape(escaped[at], escaped[at + 1]) {
        return Some((escaped[at + 1], at + 2));
    }
    None
}

/// The byte that a JSON string spells at `at`, and the place after it. `None` if it doesn't spell it
/// as `unescaped` says.
fn read_byte(escaped: &[u8], at: usize) -> Option<(u8, usize)>
    requires { at < length escaped.now }
    ensures next { IfSome result (λ read. (at < read.1) × (read.1 ≤ length escaped.now)) }
    ensures spelled { IfSome result (λ read. escape_byte read.0 ≡ take (read.1 - at) (drop at escaped.now)) }
{
    if needs_escape(escaped[at]) {
        return read_escape(escaped, at);
    }
    Some((escaped[at], at + 1))
}

/// The bytes that a JSON string spells between its quotation marks. `None` for a string with other
/// escapes than `\"` and `\\`, and for what is no such string.
///
/// # Errors
///
/// `AllocError` if an allocation fails.
pub fn unescaped(alloc: Global, escaped: &[u8]) -> Result<Option<Vec<u8>>, AllocError>
    ensures { IfOk result (λ found. IfSome found (λ bytes. escape bytes.items ≡ escaped.now)) }
{
    let mut out = Vec::with_capacity(alloc, escaped.len())?;
    let mut at = 0;
    'bytes: while at < escaped.len() {
        let Some(read) = read_byte(escaped, at) else {
            return Ok(None);
        };
        out.push_reserved(read.0);
        at = read.1;
    }
    Ok(Some(out))
}
