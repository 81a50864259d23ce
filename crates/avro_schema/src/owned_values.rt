//! Reads JSON values as `serde_json` values, which own their strings.

ghost use Rattle.std.specs.Prelude.{◌≡◌, ◌==◌, ◌<◌, ◌≤◌, ℕ, true, false, Some, None, Err, IfOk, OnOk, length, option_map, slice_index};
ghost use Rattle.json.specs.Json.{value, items, members, parse_map};
ghost use Rattle.serde_json.specs.Data.{no_members};
ghost use Rattle.serde_json.specs.Read.{number_of, number_from, float_of, of_json, of_items, of_members, converted};
ghost use Rattle.serde_json.specs.View.{view, number_view, items_view, members_view};
ghost use Rattle.avro_schema.specs.Inside.Borrowed.{items_on};

use crate::error::JsonError;
use avro_nodes::Members;
use fast_float::Numeral;
use json::{Reader, Token};
use serde_json::{Number, Value};
use std::alloc::Global;

#[inline(always)]
fn has_minus(bytes: &[u8]) -> bool
    ensures { result ≡ (slice_index bytes.now 0 == 45) }
{
    match bytes.first() {
        Some(c) => *c == b'-',
        None => false,
    }
}

/// The number that the text denotes. The result is that of `serde_json`: `None` if the number is
/// too large for a float.
#[inline(always)]
pub fn number_of(text: &str) -> Option<Number>
    ensures { option_map number_view result ≡ number_of text.now }
{
    let bytes = text.as_bytes();
    if has_minus(bytes) {
        negative(&Numeral::scan(&bytes[1..]))
    } else {
        unsigned(&Numeral::scan(bytes))
    }
}

/// The number as a `u64` if it is written as an integer and fits, else as a float (`nearest`).
#[inline(always)]
fn unsigned(numeral: &Numeral<'_>) -> Option<Number>
    ensures { option_map number_view result ≡ number_from false numeral.now }
{
    match numeral.to_u64() {
        Some(n) => Some(Number::from(n)),
        None => nearest(false, numeral),
    }
}

/// The number after a minus: an `i64` below 0 if it is written as an integer and fits, else a float
/// (`nearest`).
#[inline(always)]
fn negative(numeral: &Numeral<'_>) -> Option<Number>
    ensures { option_map number_view result ≡ number_from true numeral.now }
{
    if let Some(n) = numeral.to_i64(true) {
        if n < 0 {
            return Some(Number::from(n));
        }
    }
    nearest(true, numeral)
}

/// The nearest float, or `None` if it is infinite.
#[inline(always)]
fn nearest(is_negative: bool, numeral: &Numeral<'_>) -> Option<Number>
    ensures { option_map number_view result ≡ float_of is_negative numeral.now }
{
    Number::from_f64(numeral.to_float::<f64>(is_negative))
}

/// Reads a value whose arrays and objects nest at most `depth` levels deep; at 0 it has none.
///
/// # Errors
///
/// `Invalid` if the JSON is malformed, a number is too large for a float, or the value nests deeper.
/// `OutOfMemory` if allocation fails. After an error, the reader may have advanced.
#[cycle(keep)]
#[inline(always)]
pub fn owned_value_at(
    alloc: Global,
    reader: &mut Reader<'_>,
    depth: usize,
) -> Result<Value, JsonError>
    ensures ok { IfOk result
        (λ v. converted of_json (value depth reader.old) ≡ Some (view v, reader.new)) }
    ensures shorter { OnOk result (length reader.new < length reader.old) }
    ensures invalid { result ≡ Err JsonError.Invalid
        → converted of_json (value depth reader.old) ≡ None }
{
    let token = reader.next().ok_or(JsonError::Invalid)?;
    match token {
        Token::String(text) => Ok(Value::String(String::from_str(alloc, text)?)),
        Token::Number(text) => match number_of(text) {
            Some(number) => Ok(Value::Number(number)),
            None => Err(JsonError::Invalid),
        },
        Token::Bool(b) => Ok(Value::Bool(b)),
        Token::Null => Ok(Value::Null),
        Token::EndObject | Token::EndArray | Token::Key(_) | Token::Bad => Err(JsonError::Invalid),
        Token::BeginArray => {
            if depth == 0 {
                return Err(JsonError::Invalid);
            }
            Ok(Value::Array(owned_items_at(alloc, Vec::new(alloc), reader, depth - 1)?))
        }
        Token::BeginObject => {
            if depth == 0 {
                return Err(JsonError::Invalid);
            }
            Ok(Value::Object(owned_members_at(alloc, reader, depth - 1)?))
        }
    }
}

/// Reads the items that are left of an array, if any, and its closing bracket. Returns the items
/// `before`, followed by these. Each of these nests at most `depth` levels deep.
///
/// # Errors
///
/// As `owned_value_at`, for any of the items. `Invalid` also if the closing bracket is missing.
#[cycle(keep)]
#[inline(never)]
pub fn owned_items_at(
    alloc: Global,
    before: Vec<Value>,
    reader: &mut Reader<'_>,
    depth: usize,
) -> Result<Vec<Value>, JsonError>
    ensures ok { IfOk result (λ v. (n : ℕ) → length reader.old ≤ n
        → parse_map (items_on (items_view before.items)) (converted of_items (items (value depth) n reader.old))
        ≡ Some (items_view v.items, reader.new)) }
    ensures shorter { OnOk result (length reader.new < length reader.old) }
    ensures invalid { result ≡ Err JsonError.Invalid → (n : ℕ) → length reader.old ≤ n
        → converted of_items (items (value depth) n reader.old) ≡ None }
{
    let mut found = before;
    'items: while !reader.take_end_array() {
        let item = owned_value_at(alloc, reader, depth)?;
        found.push(item)?;
    }
    Ok(found)
}

/// Reads the rest of an object after its opening brace. Of members with the same key, the last one
/// stays. Each value nests at most `depth` levels deep.
///
/// # Errors
///
/// As `owned_value_at`, for any of the members. `Invalid` also if a key or the closing brace is
/// missing, and `OutOfMemory` for a key.
#[cycle(keep)]
#[inline(never)]
fn owned_members_at(
    alloc: Global,
    reader: &mut Reader<'_>,
    depth: usize,
) -> Result<Members, JsonError>
    ensures ok { IfOk result
        (λ m. converted (λ ms. of_members ms no_members)
        (members (value depth) (length reader.old) reader.old)
        ≡ Some (members_view m.entries, reader.new)) }
    ensures shorter { OnOk result (length reader.new < length reader.old) }
    ensures invalid { result ≡ Err JsonError.Invalid
        → converted (λ ms. of_members ms no_members)
        (members (value depth) (length reader.old) reader.old) ≡ None }
{
    let mut found = Members::new(alloc);
    'members: while let Some(name) = reader.next_key()? {
        let key = String::from_str(alloc, name)?;
        let member = owned_value_at(alloc, reader, depth)?;
        drop(found.insert(key, member)?);
    }
    Ok(found)
}
