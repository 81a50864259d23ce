//! Converts values of the tree to owned ones, and gives access to the owned members of an object.

ghost use Rattle.std.specs.Prelude.{◌≡◌, false, IfOk, OnOk, option_map, string_bytes, codes};
ghost use Rattle.serde_json.specs.Data.{put};
ghost use Rattle.serde_json.specs.Find.{get_member, as_str};
ghost use Rattle.serde_json.specs.View.{view, items_view, members_view};
ghost use Rattle.avro_schema.specs.Attributes.{without};
ghost use Rattle.avro_schema.specs.Inside.Reserved.{is_reserved};
ghost use Rattle.avro_schema.specs.Inside.Borrowed.{value_data, items_data, object_data};

use crate::borrowed::{Json, Object, TreeObject, is_reserved};
use avro_nodes::Members;
use serde_json::Value;
use std::alloc::{AllocError, Global};

/// The value as a `serde_json` value, which owns its strings.
///
/// # Errors
///
/// `AllocError` if allocation fails.
#[cycle(own)]
fn owned(alloc: Global, value: Json<'_>) -> Result<Value, AllocError>
    ensures { IfOk result (λ v. view v ≡ value_data value.entry) }
{
    match value {
        Json::Null => Ok(Value::Null),
        Json::Bool(b) => Ok(Value::Bool(b)),
        Json::Number(number) => Ok(Value::Number(number)),
        Json::Text(text) => Ok(Value::String(String::from_str(alloc, text)?)),
        Json::Array(items) => Ok(Value::Array(owned_items(alloc, items)?)),
        Json::Object(object) => Ok(Value::Object(owned_members(alloc, object)?)),
        Json::Owned(value) => Ok(value),
    }
}

/// The items as owned values.
///
/// # Errors
///
/// `AllocError` if allocation fails.
#[cycle(own)]
pub fn owned_items(alloc: Global, items: Vec<Json<'_>>) -> Result<Vec<Value>, AllocError>
    ensures { IfOk result (λ v. items_view v.items ≡ items_data items.entry.items) }
{
    let mut list = Vec::with_capacity(alloc, items.len())?;
    for item in items {
        list.push(owned(alloc, item)?)?;
    }
    Ok(list)
}

/// All members as one map.
///
/// # Errors
///
/// `AllocError` if allocation fails.
#[cycle(own)]
pub fn owned_members(alloc: Global, object: TreeObject<'_>) -> Result<Members, AllocError>
    ensures { IfOk result (λ m. members_view m.entries ≡ object_data object.entry) }
{
    let Object { reserved, others } = object;
    let mut map = others.into_map();
    if reserved.is_empty() {
        return Ok(map);
    }
    for (name, member) in reserved {
        // All these names are reserved, but no invariant says so.
        if !is_reserved(name) {
            continue;
        }
        let value = owned(alloc, member)?;
        let key = String::from_str(alloc, name)?;
        drop(map.insert(key, value)?);
    }
    Ok(map)
}

/// The string, or `None` for another kind of value.
pub fn text_of(value: Value) -> Option<String>
    ensures { option_map string_bytes result ≡ as_str (view value) }
{
    match value {
        Value::String(text) => Some(text),
        Value::Null | Value::Bool(_) | Value::Number(_) | Value::Array(_) | Value::Object(_) =>
            None,
    }
}

/// Removes the member `default`, and returns it.
pub fn take_default(object: &mut TreeObject<'_>) -> Option<Value>
    ensures value { option_map view result
        ≡ get_member (codes "default") (object_data object.old) }
    ensures rest { object_data object.new
        ≡ without (codes "default") (object_data object.old) }
{
    object.others.take("default")
}

/// Adds a member whose name isn't reserved, and replaces an earlier one with this name.
///
/// # Errors
///
/// `AllocError` if allocation fails.
pub fn put_other(
    alloc: Global,
    object: &mut TreeObject<'_>,
    name: &str,
    value: Value,
) -> Result<(), AllocError>
    requires { is_reserved name.now ≡ false }
    ensures { OnOk result (object_data object.new
        ≡ put name.now (view value) (object_data object.old)) }
{
    let key = String::from_str(alloc, name)?;
    object.others.put(key, value)?;
    Ok(())
}
