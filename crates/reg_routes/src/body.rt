//! The members of a JSON body. (RFC 8259; Schema Registry API reference, Schemas, Config and Mode.)

ghost use Rattle.std.specs.Prelude.{◌≡◌, IfOk, Some, option_and_then, option_map};
ghost use Rattle.serde_json.specs.Find.{as_str};
ghost use Rattle.serde_json.specs.View.{view};
ghost use Rattle.reg_routes.specs.Bodies.{has_no_references, is_avro, is_supported, body_json, body_schema, string_member, body_string_member};

use crate::only_schema::only_schema;
use reg_core::{OutOfMemory, Text};
use serde_json::Value;
use std::alloc::Global;

/// A schema in a body: its text, and whether it is supported, which is Avro without references.
#[derive(Drop)]
pub struct SentSchema {
    pub text: Text,
    pub supported: bool,
}

/// The value of a JSON body, as `serde_json` reads it. `None` if the body isn't JSON, nests over 127
/// levels deep, has an unpaired surrogate, or has a number too large for a float.
fn body_json(alloc: Global, body: &[u8]) -> Result<Option<Value>, OutOfMemory>
    ensures { IfOk result (λ value. option_map view value ≡ body_json body.now) }
{
    match Value::from_slice(alloc, body) {
        Ok(value) => Ok(Some(value)),
        Err(error) => {
            if error.is_memory() {
                Err(OutOfMemory)
            } else {
                Ok(None)
            }
        }
    }
}

/// The value's text if it is a string.
fn as_string(value: Option<Value>) -> Option<Text>
    ensures { result ≡ option_and_then as_str (option_map view value) }
{
    match value? {
        Value::String(text) => Some(Text::from(text)),
        _ => None,
    }
}

/// The member of this name if the value is an object and the member a string.
fn string_member(name: &str, value: Value) -> Option<Text>
    ensures { result ≡ string_member name.now (view value) }
{
    match value {
        Value::Object(mut members) => as_string(members.remove(name)),
        _ => None,
    }
}

/// Whether this `schemaType` is supported: missing, null or `"AVRO"`.
fn is_avro(kind: Option<&Value>) -> bool
    ensures { result ≡ is_avro (option_map (λ value. view value.now) kind.entry) }
{
    match kind {
        None | Some(Value::Null) => true,
        Some(Value::String(text)) => text.as_str() == "AVRO",
        Some(_) => false,
    }
}

/// Whether the value is null or an empty list.
fn is_null_or_empty(value: &Value) -> bool
    ensures { result ≡ has_no_references (Some (view value.now)) }
{
    match value {
        Value::Null => true,
        Value::Array(items) => items.is_empty(),
        _ => false,
    }
}

/// Whether these `references` are missing, null or an empty list.
fn has_no_references(references: Option<&Value>) -> bool
    ensures { result ≡ has_no_references (option_map (λ value. view value.now) references.entry) }
{
    match references {
        None => true,
        Some(value) => is_null_or_empty(value),
    }
}

/// Whether the schema of this object is supported, by its `schemaType` and `references`.
fn is_supported(value: &Value) -> bool
    ensures { result ≡ is_supported (view value.now) }
{
    is_avro(value.get("schemaType")) && has_no_references(value.get("references"))
}

/// The string member of this name in a body. `None` if the body isn't JSON, isn't an object, or has
/// no such string member.
///
/// # Errors
///
/// `OutOfMemory` if an allocation fails.
pub fn body_string_member(
    alloc: Global,
    name: &str,
    body: &[u8],
) -> Result<Option<Text>, OutOfMemory>
    ensures { IfOk result (λ text. text ≡ body_string_member name.now body.now) }
{
    match body_json(alloc, body)? {
        Some(value) => Ok(string_member(name, value)),
        None => Ok(None),
    }
}

/// The schema in a body: the string member `schema`, which isn't parsed. `None` if the body isn't a
/// JSON object with such a member. The schema is supported if `schemaType` is missing, null or
/// `"AVRO"`, and `references` is missing, null or an empty list.
///
/// # Errors
///
/// `OutOfMemory` if an allocation fails.
pub fn body_schema(alloc: Global, body: &[u8]) -> Result<Option<SentSchema>, OutOfMemory>
    ensures { IfOk result (λ schema. schema ≡ body_schema body.now) }
{
    if let Some(text) = only_schema(alloc, body)? {
        return Ok(Some(SentSchema {
            text: Text::from(text),
            supported: true,
        }));
    }
    let Some(value) = body_json(alloc, body)? else {
        return Ok(None);
    };
    let supported = is_supported(&value);
    match string_member("schema", value) {
        Some(text) => Ok(Some(SentSchema { text, supported })),
        None => Ok(None),
    }
}
