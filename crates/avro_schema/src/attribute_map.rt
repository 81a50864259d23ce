//! The attributes of a declaration and the items of an array: values of the tree, or owned ones.

ghost use Rattle.std.specs.Prelude.{◌≡◌, IsTrue, IfOk, option_map, codes};
ghost use Rattle.serde_json.specs.Find.{get_member, as_object};
ghost use Rattle.serde_json.specs.View.{view, members_view};
ghost use Rattle.avro_schema.specs.Attributes.{without};
ghost use Rattle.avro_schema.specs.Inside.Reserved.{is_reserved_name};
ghost use Rattle.avro_schema.specs.Inside.Borrowed.{value_data, members_data};

use crate::borrowed::{Json, TreeObject};
use crate::{borrowed, owning};
use avro_nodes::Members;
use serde_json::Value;
use std::alloc::{AllocError, Global};

/// The attributes of a declaration.
#[derive(Drop)]
pub enum Attributes<'a> {
    Tree(TreeObject<'a>),
    Owned(Members),
}

/// The items of an array.
#[derive(Drop)]
pub enum Items<'a> {
    Tree(Vec<Json<'a>>),
    Owned(Vec<Value>),
}

/// The attributes, if the value is an object.
#[inline(always)]
pub fn attributes_of(value: Json<'_>) -> Option<Attributes<'_>>
    ensures { option_map members_data result ≡ as_object (value_data value.entry) }
{
    match value {
        Json::Object(object) => Some(Attributes::Tree(object)),
        Json::Owned(value) => match value {
            Value::Object(map) => Some(Attributes::Owned(map)),
            Value::Null | Value::Bool(_) | Value::Number(_) | Value::String(_) | Value::Array(_) =>
                None,
        },
        Json::Null | Json::Bool(_) | Json::Number(_) | Json::Text(_) | Json::Array(_) => None,
    }
}

/// Removes the attribute with this reserved name, and returns it.
#[inline(always)]
pub fn take<'a>(attributes: &mut Attributes<'a>, key: &str) -> Option<Json<'a>>
    requires { IsTrue (is_reserved_name key.now) }
    ensures value { option_map value_data result
        ≡ get_member key.now (members_data attributes.old) }
    ensures rest { members_data attributes.new
        ≡ without key.now (members_data attributes.old) }
{
    match attributes {
        Attributes::Tree(object) => borrowed::take(object, key),
        Attributes::Owned(map) => match map.remove(key) {
            Some(value) => Some(Json::Owned(value)),
            None => None,
        },
    }
}

/// Removes the attribute `default`, and returns it. `take` can't, since this name isn't reserved.
pub fn take_default(attributes: &mut Attributes<'_>) -> Option<Value>
    ensures value { option_map view result
        ≡ get_member (codes "default") (members_data attributes.old) }
    ensures rest { members_data attributes.new
        ≡ without (codes "default") (members_data attributes.old) }
{
    match attributes {
        Attributes::Tree(object) => owning::take_default(object),
        Attributes::Owned(map) => map.remove("default"),
    }
}

/// All attributes as one map.
///
/// # Errors
///
/// `AllocError` if allocation fails.
pub fn owned_map(alloc: Global, attributes: Attributes<'_>) -> Result<Members, AllocError>
    ensures { IfOk result (λ m. members_view m.entries ≡ members_data attributes.entry) }
{
    match attributes {
        Attributes::Tree(object) => owning::owned_members(alloc, object),
        Attributes::Owned(map) => Ok(map),
    }
}
