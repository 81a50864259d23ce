//! The rule for the numbers in a schema text (this project's choice, stricter than RFC 8259,
//! section 6). Each must be an integer of 64 bits, signed or unsigned, in a form that `plain_of`
//! accepts, and is rewritten in plain decimal digits.

ghost use Rattle.std.specs.Prelude.{◌≡◌, ◌+◌, ◌^◌, ◌==◌, ◌<◌, ◌≤◌, ◌&&◌, ◌⊎◌, length, drop, slice_range, slice_index, nat_lt, take, IsTrue, true, false, if◌then◌else◌, Some, None, IfOk, option_map, string_bytes};
ghost use Rattle.std.specs.Char.{is_ascii_digit};
ghost use Rattle.std.specs.List.{prefix_len, list_all};
ghost use Rattle.std.specs.Str.{IsCharBoundary};
ghost use Rattle.std.specs.Str.Parse.{digits_value};
ghost use Rattle.avro_nodes.specs.Plain.{Inside, Outside, is_number_char as is_number_char_of, pieces, joined, prepended, is_whole, whole_part, is_canonical_decimal as is_canonical_decimal_of, are_zeros as are_zeros_of, respelt_whole, begins_number as begins_number_of, piece_text, run as run_of, plain};
ghost use Rattle.avro_nodes.specs.Respelling.{respelt_text};

use crate::error::OutOfMemory;
use crate::respelling::Respelling;
use memchr::memchr2;
use std::alloc::Global;

fn is_number_char(c: u8) -> bool
    ensures { result ≡ is_number_char_of c }
{
    c.is_ascii_digit() || matches!(c, b'+' | b'-' | b'.' | b'e' | b'E')
}

/// The index after the escape that begins at `at`, inside a string: a backslash and the byte after
/// it, unless the text ends there.
fn escape_end(bytes: &[u8], at: usize) -> usize
    requires { (at < length bytes.now) × (slice_index bytes.now at ≡ 92) }
    ensures bounds { (at < result) × (result ≤ length bytes.now) }
    ensures pieces { joined (pieces Inside (drop at bytes.now))
        ≡ prepended (slice_range bytes.now at result) (joined (pieces Inside (drop result bytes.now))) }
{
    if at + 1 < bytes.len() { at + 2 } else { at + 1 }
}

/// The index of the first quote or backslash from `from` on, or the length of the text. The byte at
/// `from` is inside a string.
fn next_quote_or_backslash(bytes: &[u8], from: usize) -> usize
    requires { from ≤ length bytes.now }
    ensures bounds { (from ≤ result) × (result ≤ length bytes.now) }
    ensures found { result < length bytes.now
        → (slice_index bytes.now result ≡ 34) ⊎ (slice_index bytes.now result ≡ 92) }
    ensures pieces { joined (pieces Inside (drop from bytes.now))
        ≡ prepended (slice_range bytes.now from result) (joined (pieces Inside (drop result bytes.now))) }
{
    match memchr2(b'"', b'\\', &bytes[from..]) {
        Some(skipped) => from + skipped,
        None => bytes.len(),
    }
}

/// The index after the string that contains the byte at `from`, or the length of the text if the
/// string has no end.
fn string_end(bytes: &[u8], from: usize) -> usize
    requires { from ≤ length bytes.now }
    ensures bounds { (from ≤ result) × (result ≤ length bytes.now) }
    ensures pieces { joined (pieces Inside (drop from bytes.now))
        ≡ prepended (slice_range bytes.now from result) (joined (pieces Outside (drop result bytes.now))) }
{
    let mut at = next_quote_or_backslash(bytes, from);
    while at < bytes.len() {
        if bytes[at] == b'"' {
            return at + 1;
        }
        at = next_quote_or_backslash(bytes, escape_end(bytes, at));
    }
    at
}

/// The index after the string that begins at `at`, or after the byte there if it begins no string.
fn next_outside(bytes: &[u8], at: usize) -> usize
    requires { (at < length bytes.now) × (is_number_char_of (slice_index bytes.now at) ≡ false) }
    ensures bounds { (at < result) × (result ≤ length bytes.now) }
    ensures pieces { joined (pieces Outside (drop at bytes.now))
        ≡ prepended (slice_range bytes.now at result) (joined (pieces Outside (drop result bytes.now))) }
{
    if bytes[at] == b'"' {
        string_end(bytes, at + 1)
    } else {
        at + 1
    }
}

/// The index of the first number character outside the strings from `from` on, or the length of the
/// text. `from` is the index of a byte outside the strings, or the length of the text.
fn run_start(bytes: &[u8], from: usize) -> usize
    requires { from ≤ length bytes.now }
    ensures bounds { (from ≤ result) × (result ≤ length bytes.now) }
    ensures found { result < length bytes.now → is_number_char_of (slice_index bytes.now result) ≡ true }
    ensures pieces { joined (pieces Outside (drop from bytes.now))
        ≡ prepended (slice_range bytes.now from result) (joined (pieces Outside (drop result bytes.now))) }
{
    let mut at = from;
    while at < bytes.len() {
        if is_number_char(bytes[at]) {
            return at;
        }
        at = next_outside(bytes, at);
    }
    at
}

/// The end of the run of number characters that begins at `start`.
fn run_end(bytes: &[u8], start: usize) -> usize
    requires { start ≤ length bytes.now }
    ensures { result ≡ start + prefix_len is_number_char_of (drop start bytes.now) }
{
    for end in start..bytes.len() {
        if !is_number_char(bytes[end]) {
            return end;
        }
    }
    bytes.len()
}

fn all_zeros(bytes: &[u8]) -> bool
    ensures { result ≡ list_all (λ c. c == 48) bytes.now }
{
    bytes.iter().all(|c| *c == b'0')
}

fn all_digits(bytes: &[u8]) -> bool
    ensures { result ≡ list_all is_ascii_digit bytes.now }
{
    bytes.iter().all(|c| c.is_ascii_digit())
}

/// Whether the text is one or more zeros.
fn are_zeros(text: &str) -> bool
    ensures { result ≡ are_zeros_of text.now }
{
    !text.is_empty() && all_zeros(text.as_bytes())
}

/// The integer part of a run, if the run has no other part than zeros. A run without a point is
/// returned as it is. For a run with a point, the result is the part before the point, or `None`
/// unless one or more zeros and nothing else follow the point.
fn whole_part_if_integer(run: &str) -> Option<&str>
    ensures { option_map (λ s. s.now) result
        ≡ (if is_whole run.now then Some (whole_part run.now) else None) }
{
    match run.split_once('.') {
        None => Some(run),
        Some((whole, zeros)) => if are_zeros(zeros) { Some(whole) } else { None },
    }
}

/// Whether the text is `0`, or digits without a leading zero.
fn is_canonical_decimal(text: &str) -> bool
    ensures { result ≡ is_canonical_decimal_of text.now }
{
    let bytes = text.as_bytes();
    !bytes.is_empty() && all_digits(bytes) && (bytes[0] != b'0' || bytes.len() == 1)
}

/// The value of the digits, if they are a number below 2^64 without a leading zero.
fn magnitude(digits: &str) -> Option<u64>
    ensures { result ≡ (if is_canonical_decimal_of digits.now && nat_lt (digits_value 10 digits.now) (2 ^ 64)
        then Some (digits_value 10 digits.now) else None) }
{
    if !is_canonical_decimal(digits) {
        return None;
    }
    digits.parse::<u64>().ok()
}

/// The whole part of a run in plain decimal digits: `-0` becomes `0`, and any other stays. `None`
/// if it is malformed or out of range (see `plain_of`).
fn respell_whole(whole: &str) -> Option<&str>
    ensures { option_map (λ s. s.now) result ≡ respelt_whole whole.now }
{
    let Some(digits) = whole.strip_prefix('-') else {
        let _number = magnitude(whole)?;
        return Some(whole);
    };
    let number = magnitude(digits)?;
    if number == 0 {
        Some(digits)
    } else if number <= 1 << 63 {
        Some(whole)
    } else {
        None
    }
}

fn begins_number(run: &str) -> bool
    ensures { result ≡ begins_number_of run.now }
{
    match run.as_bytes().first() {
        None => false,
        Some(c) => c.is_ascii_digit() || *c == b'-',
    }
}

/// The text that replaces a run. A run that doesn't begin with a digit or `-` stays as it is. The
/// result is `None` if a number is malformed or out of range, or has an exponent, a leading zero or
/// a fraction other than zeros.
fn respell_run(run: &str) -> Option<&str>
    ensures { option_map (λ s. s.now) result ≡ piece_text (run_of run.now) }
{
    if begins_number(run) {
        respell_whole(whole_part_if_integer(run)?)
    } else {
        Some(run)
    }
}

/// Whether a run stays as it is. Digits aren't parsed if there are at most 19 of them, since their
/// value is below 2^64.
fn is_unchanged(run: &str) -> bool
    ensures { IsTrue result → piece_text (run_of run.now) ≡ Some run.now }
{
    if run.len() < 20 && is_canonical_decimal(run) {
        return true;
    }
    match respell_run(run) {
        Some(number) => number == run,
        None => false,
    }
}

/// An index up to which the text stays as it is: the end of the last run before the first one that
/// is rewritten or breaks the rule, or 0 if there is no run before it. If no run is rewritten or
/// breaks the rule, the length of the text.
fn unchanged_len(text: &str) -> usize
    ensures bounds { result ≤ length text.now }
    ensures cut { IsCharBoundary text.now result }
    ensures kept { prepended (take result text.now) (joined (pieces Outside (drop result text.now)))
        ≡ plain text.now }
{
    let bytes = text.as_bytes();
    let mut at = 0;
    while at < bytes.len() {
        let start = run_start(bytes, at);
        let end = run_end(bytes, start);
        if !is_unchanged(&text[start..end]) {
            return at;
        }
        at = end;
    }
    at
}

/// Rewrites each number of a text in plain decimal digits, by the rule of `plain_of`. A text that
/// stays as it is isn't copied.
///
/// # Errors
///
/// `OutOfMemory` if an allocation for the text fails.
pub fn respelling_of(alloc: Global, text: &str) -> Result<Respelling, OutOfMemory>
    ensures { IfOk result (λ r. respelt_text text.now r ≡ plain text.now) }
{
    let bytes = text.as_bytes();
    let mut at = unchanged_len(text);
    if at == bytes.len() {
        return Ok(Respelling::Unchanged);
    }
    let mut out = String::with_capacity(alloc, text.len())?;
    out.push_str(&text[..at])?;
    while at < bytes.len() {
        let start = run_start(bytes, at);
        let end = run_end(bytes, start);
        let Some(number) = respell_run(&text[start..end]) else {
            return Ok(Respelling::Invalid);
        };
        out.push_str(&text[at..start])?;
        out.push_str(number)?;
        at = end;
    }
    Ok(Respelling::Changed(out))
}

/// Returns the text with each number rewritten in plain decimal digits, or `None` if a number isn't
/// an integer from -2^63 to 2^64 - 1 (this project's choice). A number is a maximal run of the
/// characters `0` to `9`, `+`, `-`, `.`, `e`, `E` outside strings. It begins with a digit or `-`. It
/// must have no leading zero and no exponent. A point must be followed by one or more zeros
/// and nothing else. `-0` is rewritten as `0`.
///
/// # Errors
///
/// `OutOfMemory` if an allocation for the text fails.
pub fn plain_of(alloc: Global, text: &str) -> Result<Option<String>, OutOfMemory>
    ensures { IfOk result (λ o. option_map string_bytes o ≡ plain text.now) }
{
    match respelling_of(alloc, text)? {
        Respelling::Unchanged => Ok(Some(String::from_str(alloc, text)?)),
        Respelling::Changed(respelt) => Ok(Some(respelt)),
        Respelling::Invalid => Ok(None),
    }
}
