//! The tree of a schema text's JSON. Its strings borrow from the text, or, if they have escapes, from
//! the reader's buffer of decoded strings.

ghost use Rattle.std.specs.Prelude.{◌≡◌, ◌<◌, None, Some, IsTrue, MatchOption, length, option_map, option_and_then, slice_get, OnOk, not, filter};
ghost use Rattle.std.specs.List.{list_any};
ghost use Rattle.std.specs.Str.{bytes_eq};
ghost use Rattle.serde_json.specs.Data.{Data, put, no_members};
ghost use Rattle.serde_json.specs.Find.{get_member, as_str, as_number, as_u64};
ghost use Rattle.avro_schema.specs.Attributes.{without};
ghost use Rattle.avro_schema.specs.Inside.Reserved.{is_reserved, is_reserved_name};
ghost use Rattle.avro_schema.specs.Inside.Borrowed.{value_data, object_data};

use crate::others::OtherMembers;
use serde_json::{Number, Value};
use std::alloc::{AllocError, Global};

/// A JSON value. Its strings are borrowed, except those of `Owned` and of an object's other members.
#[derive(Drop)]
pub enum Json<'a> {
    Null,
    Bool(bool),
    Number(Number),
    Text(&'a str),
    Array(Vec<Json<'a>>),
    Object(Object<(&'a str, Json<'a>)>),
    /// a `serde_json` value: one for which the tree had no budget, or a part of such a value
    Owned(Value),
}

/// A JSON object. Its reserved members have the type `M`, which is a parameter because `Json`
/// contains objects.
#[derive(Drop)]
pub struct Object<M> {
    /// at most one for each name
    pub reserved: Vec<M>,
    pub others: OtherMembers,
}

/// An object of the tree.
pub type TreeObject<'a> = Object<(&'a str, Json<'a>)>;

/// Whether this name is reserved: a member with it has a meaning in some declaration. `default` has
/// a meaning, too, but isn't reserved. It is read like the members without a meaning.
#[tactic(auto, unfolding(crate::specs::Inside::Reserved::is_reserved))]
pub fn is_reserved(key: &str) -> bool
    ensures { result ≡ is_reserved key.now }
{
    match key.len() {
        4 => key == "name" || key == "type" || key == "size",
        5 => key == "order" || key == "items",
        6 => key == "fields" || key == "values",
        7 => key == "aliases" || key == "symbols",
        9 => key == "namespace",
        _ => false,
    }
}

/// The string, or `None` for another kind of value.
pub fn text_of<'t>(value: &'t Json<'_>) -> Option<&'t str>
    ensures { option_map (λ s. s.now) result ≡ as_str (value_data value.now) }
{
    match value {
        Json::Text(text) => Some(text),
        Json::Owned(value) => value.as_str(),
        Json::Null | Json::Bool(_) | Json::Number(_) | Json::Array(_) | Json::Object(_) => None,
    }
}

/// The number, if the value is a nonnegative 64-bit integer.
pub fn unsigned_of(value: &Json<'_>) -> Option<u64>
    ensures { result ≡ option_and_then as_u64 (as_number (value_data value.now)) }
{
    match value {
        Json::Number(number) => number.as_u64(),
        Json::Owned(value) => value.as_u64(),
        Json::Null | Json::Bool(_) | Json::Text(_) | Json::Array(_) | Json::Object(_) => None,
    }
}

/// The index of the reserved member with this name, or `None`. There is at most one, but no
/// invariant says so; the last would count.
fn last_index(object: &TreeObject<'_>, key: &str) -> Option<usize>
    requires { IsTrue (is_reserved_name key.now) }
    ensures { MatchOption result (get_member key.now (object_data object.now) ≡ None)
        (λ i. (i < length object.now.reserved.items)
        × (option_map (λ m. m.0.now) (slice_get object.now.reserved.items i) ≡ Some key.now)
        × (get_member key.now (object_data object.now)
        ≡ option_map (λ m. value_data m.1) (slice_get object.now.reserved.items i))) }
{
    let mut left = object.reserved.len();
    while left > 0 {
        left -= 1;
        if object.reserved[left].0 == key {
            return Some(left);
        }
    }
    None
}

/// The value of the member with this reserved name.
pub fn find<'t, 'a>(object: &'t TreeObject<'a>, key: &str) -> Option<&'t Json<'a>>
    requires { IsTrue (is_reserved_name key.now) }
    ensures { option_map (λ v. value_data v.now) result
        ≡ get_member key.now (object_data object.now) }
{
    match last_index(object, key) {
        Some(at) => Some(&object.reserved[at].1),
        None => None,
    }
}

fn has_member(members: &[(&str, Json<'_>)], key: &str) -> bool
    ensures { result ≡ list_any (λ m. bytes_eq m.0.now key.now) members.now }
{
    members.iter().any(|member| member.0 == key)
}

/// Removes all members with this name. After its callers removed one, there are none, but no
/// invariant says so.
fn remove_members<'a>(members: &mut Vec<(&'a str, Json<'a>)>, key: &str)
    ensures { members.new.items ≡ filter (λ m. not (bytes_eq m.0.now key.now)) members.old.items }
{
    if !has_member(members, key) {
        return;
    }
    members.retain(
        |member: &(&str, Json<'_>)| -> bool
            ensures { result ≡ not (bytes_eq member.now.0.now key.entry.now) }
        { member.0 != key },
    );
}

/// Removes the member with this reserved name, and returns its value.
pub fn take<'a>(object: &mut TreeObject<'a>, key: &str) -> Option<Json<'a>>
    requires { IsTrue (is_reserved_name key.now) }
    ensures value { option_map value_data result
        ≡ get_member key.now (object_data object.old) }
    ensures rest { object_data object.new
        ≡ without key.now (object_data object.old) }
{
    let Some(at) = last_index(object, key) else {
        return None;
    };
    let (_key, value) = object.reserved.remove(at);
    remove_members(&mut object.reserved, key);
    Some(value)
}

/// An object without members.
pub fn empty_object<'a>(alloc: Global) -> TreeObject<'a>
    ensures { object_data result ≡ no_members }
{
    Object {
        reserved: Vec::new(alloc),
        others: OtherMembers::none(alloc),
    }
}

/// Reserves room for two values in a list without capacity, and does nothing to another list. Most
/// objects have one or two reserved members, and most unions have two branches.
///
/// # Errors
///
/// `AllocError` if allocation fails.
pub fn reserve_two<T>(list: &mut Vec<T>) -> Result<(), AllocError>
    ensures { list.new.items ≡ list.old.items }
{
    if list.capacity() == 0 {
        list.reserve_exact(2)?;
    }
    Ok(())
}

/// Drops the member with this reserved name. There rarely is one.
fn drop_member(object: &mut TreeObject<'_>, key: &str)
    requires { IsTrue (is_reserved_name key.now) }
    ensures { (value : Data) → put key.now value (object_data object.new)
        ≡ put key.now value (object_data object.old) }
{
    let Some(at) = last_index(object, key) else {
        return;
    };
    drop(object.reserved.remove(at));
    remove_members(&mut object.reserved, key);
}

/// Adds a member with a reserved name, and replaces an earlier one with this name.
///
/// # Errors
///
/// `AllocError` if allocation fails. The contract doesn't say which members are left then.
pub fn put_reserved<'a>(
    object: &mut TreeObject<'a>,
    key: &'a str,
    value: Json<'a>,
) -> Result<(), AllocError>
    requires { IsTrue (is_reserved_name key.now) }
    ensures { OnOk result (object_data object.new
        ≡ put key.now (value_data value.entry) (object_data object.old)) }
{
    drop_member(object, key);
    reserve_two(&mut object.reserved)?;
    object.reserved.push((key, value))?;
    Ok(())
}
