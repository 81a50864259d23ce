//! Replies with JSON bodies.

ghost use Rattle.std.specs.Prelude.{◌≡◌, IfOk, false, map};
ghost use Rattle.serde_json.specs.View.{view};
ghost use Rattle.serde_json.specs.Written.{compact_text, has_float};
ghost use Rattle.reg_core.specs.Bodies.{number_body, numbers_body, subject_version_data, subject_versions_body, schema_body, strings_body, version_body};
ghost use Rattle.reg_core.specs.Replies.{success};

use crate::json_strings::quoted;
use crate::reply::Reply;
use crate::row::Row;
use avro_nodes::OutOfMemory;
use itoa::Buffer;
use serde_json::{Value, json};
use std::alloc::Global;

/// The reply with a schema: an object with its identity text.
pub fn schema_reply(alloc: Global, text: &str) -> Result<Reply, OutOfMemory>
    ensures { IfOk result (λ reply. reply ≡ success (schema_body text.now)) }
{
    let schema = quoted(alloc, text)?;
    let mut body = String::with_capacity(alloc, schema.len() + 11)?;
    body.push_str("{\"schema\":")?;
    body.push_str(schema.as_str())?;
    body.push_str("}")?;
    Ok(Reply::success(body))
}

/// The reply with a version and the identity text of its schema.
pub fn version_reply(alloc: Global, row: &Row, text: &str) -> Result<Reply, OutOfMemory>
    ensures { IfOk result (λ reply. reply ≡ success (version_body row.now text.now)) }
{
    let schema = quoted(alloc, text)?;
    let subject = quoted(alloc, row.subject().as_str())?;
    let mut id = Buffer::new();
    let mut version = Buffer::new();
    let mut body = String::with_capacity(alloc, schema.len().saturating_add(subject.len() + 64))?;
    body.push_str("{\"id\":")?;
    body.push_str(id.format(row.id()))?;
    body.push_str(",\"schema\":")?;
    body.push_str(schema.as_str())?;
    body.push_str(",\"subject\":")?;
    body.push_str(subject.as_str())?;
    body.push_str(",\"version\":")?;
    body.push_str(version.format(row.version()))?;
    body.push_str("}")?;
    Ok(Reply::success(body))
}

/// The reply with an array of strings.
pub fn strings_reply(alloc: Global, texts: &[&str]) -> Result<Reply, OutOfMemory>
    ensures { IfOk result (λ reply. reply ≡ success (strings_body (map (λ text. text.now) texts.now))) }
{
    let mut values = Vec::new(alloc);
    for text in texts {
        values.push(Value::String(String::from_str(alloc, text)?))?;
    }
    value_reply(alloc, Value::Array(values))
}

/// The reply with a number.
pub fn number_reply(alloc: Global, number: u32) -> Result<Reply, OutOfMemory>
    ensures { IfOk result (λ reply. reply ≡ success (number_body number)) }
{
    value_reply(alloc, Value::from(number))
}

/// The reply with an array of the versions' numbers.
pub fn numbers_reply(alloc: Global, rows: &[&Row]) -> Result<Reply, OutOfMemory>
    ensures { IfOk result (λ reply. reply ≡ success
        (numbers_body (map (λ row. row.0.1) (map (λ row. row.now) rows.now)))) }
{
    let mut values = Vec::new(alloc);
    for row in rows {
        values.push(Value::from(row.version()))?;
    }
    value_reply(alloc, Value::Array(values))
}

/// The reply with an array of the versions' subjects and numbers.
pub fn subject_versions_reply(alloc: Global, rows: &[&Row]) -> Result<Reply, OutOfMemory>
    ensures { IfOk result (λ reply. reply ≡ success (subject_versions_body (map (λ row. row.now) rows.now))) }
{
    let mut values = Vec::new(alloc);
    for row in rows {
        values.push(subject_version(alloc, row)?)?;
    }
    value_reply(alloc, Value::Array(values))
}

/// An object with the version's subject and number.
fn subject_version(alloc: Global, row: &Row) -> Result<Value, OutOfMemory>
    ensures { IfOk result (λ value. view value ≡ subject_version_data row.now) }
{
    let subject = row.subject().as_str();
    let version = row.version();
    Ok(json!(in alloc; {"subject": subject, "version": version})?)
}

/// The reply with the JSON value. The clause excludes values with floats.
fn value_reply(alloc: Global, value: Value) -> Result<Reply, OutOfMemory>
    ensures { IfOk result (λ reply. has_float (view value) ≡ false
        → reply ≡ success (compact_text (view value))) }
{
    Ok(Reply::success(value.to_string(alloc)?))
}
