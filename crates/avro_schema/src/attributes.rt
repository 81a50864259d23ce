//! The values of a declaration's attributes.

ghost use Rattle.std.specs.Prelude.{IsTrue, ◌≡◌, option_map, string_bytes};
ghost use Rattle.serde_json.specs.Find.{as_str, as_array};
ghost use Rattle.serde_json.specs.View.{items_view};
ghost use Rattle.avro_nodes.specs.Nodes.{texts_view};
ghost use Rattle.avro_schema.specs.Inside.Declarations.{listed_name};
ghost use Rattle.avro_schema.specs.Attributes.{without, text_in, array_in, text_if_any, texts_in, texts_if_any, size_of};
ghost use Rattle.avro_schema.specs.Inside.Reserved.{is_reserved_name};
ghost use Rattle.avro_schema.specs.Inside.Borrowed.{value_data, items_data, list_data, members_data};
ghost use Rattle.avro_schema.specs.Inside.ReaderResults.{Gives};

use crate::attribute_map::{Attributes, Items, take};
use crate::borrowed::{Json, unsigned_of};
use crate::error::SchemaError;
use crate::{names, owning};
use serde_json::Value;
use std::alloc::Global;

/// The text of a string.
///
/// # Errors
///
/// `BadShape` if the value isn't a string, and `OutOfMemory` if allocation fails.
fn string_of(alloc: Global, value: Json<'_>) -> Result<String, SchemaError>
    ensures { Gives string_bytes result (as_str (value_data value.entry)) }
{
    match value {
        Json::Text(text) => Ok(String::from_str(alloc, text)?),
        Json::Owned(value) => match owning::text_of(value) {
            Some(text) => Ok(text),
            None => Err(SchemaError::BadShape),
        },
        Json::Null | Json::Bool(_) | Json::Number(_) | Json::Array(_) | Json::Object(_) => {
            Err(SchemaError::BadShape)
        }
    }
}

/// Removes the attribute with this reserved name, and returns its text. The attribute must be a
/// string.
///
/// # Errors
///
/// `BadShape` if the attribute is missing or isn't a string, and `OutOfMemory` if allocation fails.
/// The attribute is removed even then.
#[tactic(auto, unfolding(crate::specs::Attributes::text_in))]
pub fn take_text(
    alloc: Global,
    attributes: &mut Attributes<'_>,
    key: &str,
) -> Result<String, SchemaError>
    requires { IsTrue (is_reserved_name key.now) }
    ensures text { Gives string_bytes result (text_in key.now (members_data attributes.old)) }
    ensures rest { members_data attributes.new
        ≡ without key.now (members_data attributes.old) }
{
    match take(attributes, key) {
        Some(value) => string_of(alloc, value),
        None => Err(SchemaError::BadShape),
    }
}

/// Removes the attribute with this reserved name, and returns its text, or `None` if it is missing.
/// Otherwise it must be a string.
///
/// # Errors
///
/// `BadShape` if the attribute isn't a string, and `OutOfMemory` if allocation fails. The attribute
/// is removed even then.
#[tactic(auto, unfolding(crate::specs::Attributes::text_if_any))]
pub fn take_text_if_any(
    alloc: Global,
    attributes: &mut Attributes<'_>,
    key: &str,
) -> Result<Option<String>, SchemaError>
    requires { IsTrue (is_reserved_name key.now) }
    ensures text { Gives (option_map string_bytes) result
        (text_if_any key.now (members_data attributes.old)) }
    ensures rest { members_data attributes.new
        ≡ without key.now (members_data attributes.old) }
{
    match take(attributes, key) {
        Some(value) => Ok(Some(string_of(alloc, value)?)),
        None => Ok(None),
    }
}

/// The items of an array.
///
/// # Errors
///
/// `BadShape` if the value isn't an array.
pub fn items_of(value: Json<'_>) -> Result<Items<'_>, SchemaError>
    ensures { Gives list_data result (as_array (value_data value.entry)) }
{
    match value {
        Json::Array(items) => Ok(Items::Tree(items)),
        Json::Owned(value) => match value {
            Value::Array(values) => Ok(Items::Owned(values)),
            Value::Null | Value::Bool(_) | Value::Number(_) | Value::String(_) | Value::Object(_) =>
                Err(SchemaError::BadShape),
        },
        Json::Null | Json::Bool(_) | Json::Number(_) | Json::Text(_) | Json::Object(_) => {
            Err(SchemaError::BadShape)
        }
    }
}

/// Removes the attribute with this reserved name, and returns its items. The attribute must be an
/// array.
///
/// # Errors
///
/// `BadShape` if the attribute is missing or isn't an array. The attribute is removed even then.
#[tactic(auto, unfolding(crate::specs::Attributes::array_in))]
pub fn take_items<'a>(attributes: &mut Attributes<'a>, key: &str) -> Result<Items<'a>, SchemaError>
    requires { IsTrue (is_reserved_name key.now) }
    ensures items { Gives list_data result (array_in key.now (members_data attributes.old)) }
    ensures rest { members_data attributes.new
        ≡ without key.now (members_data attributes.old) }
{
    match take(attributes, key) {
        Some(value) => items_of(value),
        None => Err(SchemaError::BadShape),
    }
}

/// The name that a text in a list of names denotes. With a namespace (empty for the null namespace)
/// it is the full name of an alias. With `None` it is the text itself, which must be a simple name.
///
/// # Errors
///
/// `BadName` if the text isn't such a name, and `OutOfMemory` if allocation fails.
#[tactic(auto, unfolding(crate::specs::Inside::Declarations::listed_name))]
fn listed_name(
    alloc: Global,
    text: String,
    alias_namespace: Option<&str>,
) -> Result<String, SchemaError>
    ensures { Gives string_bytes result
        (listed_name (option_map (λ s. s.now) alias_namespace.entry) (string_bytes text)) }
{
    let Some(namespace) = alias_namespace else {
        return if names::is_simple(text.as_str()) {
            Ok(text)
        } else {
            Err(SchemaError::BadName)
        };
    };
    match names::alias_in(alloc, namespace, text)? {
        Some(name) => Ok(name),
        None => Err(SchemaError::BadName),
    }
}

/// `names_in` for an array of the tree.
fn names_of(
    alloc: Global,
    items: Vec<Json<'_>>,
    alias_namespace: Option<&str>,
) -> Result<Vec<String>, SchemaError>
    ensures { Gives (λ v. texts_view v.items) result
        (texts_in (listed_name (option_map (λ s. s.now) alias_namespace.entry)) (items_data items.entry.items)) }
{
    let mut names = Vec::with_capacity(alloc, items.len())?;
    for item in items {
        let text = string_of(alloc, item)?;
        names.push(listed_name(alloc, text, alias_namespace)?)?;
    }
    Ok(names)
}

/// `names_in` for an owned array.
fn names_of_values(
    alloc: Global,
    values: Vec<Value>,
    alias_namespace: Option<&str>,
) -> Result<Vec<String>, SchemaError>
    ensures { Gives (λ v. texts_view v.items) result
        (texts_in (listed_name (option_map (λ s. s.now) alias_namespace.entry)) (items_view values.items)) }
{
    let mut names = Vec::with_capacity(alloc, values.len())?;
    for value in values {
        let Some(text) = owning::text_of(value) else {
            return Err(SchemaError::BadShape);
        };
        names.push(listed_name(alloc, text, alias_namespace)?)?;
    }
    Ok(names)
}

/// The names in an array. With a namespace (empty for the null namespace), each item is an alias,
/// and the result has its full name. With `None`, each item must be a simple name: a symbol, or an
/// alias of a field.
///
/// # Errors
///
/// `BadShape` if an item isn't a string, `BadName` if it isn't such a name, and `OutOfMemory` if
/// allocation fails.
pub fn names_in(
    alloc: Global,
    items: Items<'_>,
    alias_namespace: Option<&str>,
) -> Result<Vec<String>, SchemaError>
    ensures { Gives (λ v. texts_view v.items) result
        (texts_in (listed_name (option_map (λ s. s.now) alias_namespace.entry)) (list_data items.entry)) }
{
    match items {
        Items::Tree(items) => names_of(alloc, items, alias_namespace),
        Items::Owned(values) => names_of_values(alloc, values, alias_namespace),
    }
}

/// The names in an optional attribute, as in `names_in`. If it is missing, there are none.
///
/// # Errors
///
/// `BadShape` if the attribute isn't an array, and the errors of `names_in`.
pub fn names_if_any(
    alloc: Global,
    attribute: Option<Json<'_>>,
    alias_namespace: Option<&str>,
) -> Result<Vec<String>, SchemaError>
    ensures { Gives (λ v. texts_view v.items) result
        (texts_if_any (listed_name (option_map (λ s. s.now) alias_namespace.entry)) (option_map value_data attribute.entry)) }
{
    match attribute {
        Some(value) => names_in(alloc, items_of(value)?, alias_namespace),
        None => Ok(Vec::new(alloc)),
    }
}

/// The size in bytes of a `fixed` type. `None` if it isn't an integer from 0 to 2^31 - 1.
#[tactic(auto, unfolding(crate::specs::Attributes::size_of))]
pub fn size_of(attribute: Option<Json<'_>>) -> Option<u32>
    ensures { result ≡ size_of (option_map value_data attribute.entry) }
{
    let Some(value) = attribute else {
        return None;
    };
    match unsigned_of(&value) {
        Some(size) if size < 1 << 31 => Some(size as u32),
        _ => None,
    }
}
