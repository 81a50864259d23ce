//! References to values of a tree, and to values inside an owned one.

ghost use Rattle.std.specs.Prelude.{◌≡◌, IsTrue, option_map};
ghost use Rattle.serde_json.specs.Find.{get_member, as_str, as_array, as_object};
ghost use Rattle.serde_json.specs.View.{view, members_view};
ghost use Rattle.avro_schema.specs.Inside.Reserved.{is_reserved_name};
ghost use Rattle.avro_schema.specs.Inside.References.{ref_data, items_ref_data, object_ref_data};

use crate::borrowed;
use crate::borrowed::{Json, TreeObject};
use avro_nodes::Members;
use serde_json::Value;

/// A reference to a value.
#[derive(Clone, Copy)]
pub enum ValueRef<'t, 'a> {
    Tree(&'t Json<'a>),
    Owned(&'t Value),
}

/// A reference to the items of an array.
#[derive(Clone, Copy)]
pub enum ItemsRef<'t, 'a> {
    Tree(&'t Vec<Json<'a>>),
    Owned(&'t Vec<Value>),
}

/// A reference to the members of an object.
#[derive(Clone, Copy)]
pub enum ObjectRef<'t, 'a> {
    Tree(&'t TreeObject<'a>),
    Owned(&'t Members),
}

/// The string, or `None` for another kind of value.
pub fn text_of<'t>(value: ValueRef<'t, '_>) -> Option<&'t str>
    ensures { option_map (λ s. s.now) result ≡ as_str (ref_data value.entry) }
{
    match value {
        ValueRef::Tree(value) => borrowed::text_of(value),
        ValueRef::Owned(value) => value.as_str(),
    }
}

fn owned_items<'t, 'a>(value: &'t Value) -> Option<ItemsRef<'t, 'a>>
    ensures { option_map items_ref_data result ≡ as_array (view value.now) }
{
    match value.as_array() {
        Some(items) => Some(ItemsRef::Owned(items)),
        None => None,
    }
}

/// The items of an array, or `None` for another kind of value.
pub fn items_of<'t, 'a>(value: ValueRef<'t, 'a>) -> Option<ItemsRef<'t, 'a>>
    ensures { option_map items_ref_data result ≡ as_array (ref_data value.entry) }
{
    match value {
        ValueRef::Tree(value) => match value {
            Json::Array(items) => Some(ItemsRef::Tree(items)),
            Json::Owned(value) => owned_items(value),
            Json::Null | Json::Bool(_) | Json::Number(_) | Json::Text(_) | Json::Object(_) => None,
        },
        ValueRef::Owned(value) => owned_items(value),
    }
}

fn owned_object<'t, 'a>(value: &'t Value) -> Option<ObjectRef<'t, 'a>>
    ensures { option_map object_ref_data result ≡ as_object (view value.now) }
{
    match value.as_object() {
        Some(members) => Some(ObjectRef::Owned(members)),
        None => None,
    }
}

/// The members of an object, or `None` for another kind of value.
pub fn object_of<'t, 'a>(value: ValueRef<'t, 'a>) -> Option<ObjectRef<'t, 'a>>
    ensures { option_map object_ref_data result ≡ as_object (ref_data value.entry) }
{
    match value {
        ValueRef::Tree(value) => match value {
            Json::Object(object) => Some(ObjectRef::Tree(object)),
            Json::Owned(value) => owned_object(value),
            Json::Null | Json::Bool(_) | Json::Number(_) | Json::Text(_) | Json::Array(_) => None,
        },
        ValueRef::Owned(value) => owned_object(value),
    }
}

/// The value of the member with this name, in an owned object.
pub fn member_of<'a>(members: &'a Members, key: &str) -> Option<&'a Value>
    ensures { option_map (λ v. view v.now) result
        ≡ get_member key.now (members_view members.now.entries) }
{
    members.get(key)
}

/// The member with this reserved name.
pub fn find<'t, 'a>(object: ObjectRef<'t, 'a>, key: &str) -> Option<ValueRef<'t, 'a>>
    requires { IsTrue (is_reserved_name key.now) }
    ensures { option_map ref_data result ≡ get_member key.now (object_ref_data object.entry) }
{
    match object {
        ObjectRef::Tree(object) => match borrowed::find(object, key) {
            Some(value) => Some(ValueRef::Tree(value)),
            None => None,
        },
        ObjectRef::Owned(members) => match member_of(members, key) {
            Some(value) => Some(ValueRef::Owned(value)),
            None => None,
        },
    }
}
