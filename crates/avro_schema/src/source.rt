//! Reads a schema text as a tree of JSON values that borrow from it. The tree has a budget. Once it
//! is spent, all further values are read as `serde_json` values.

ghost use Rattle.std.specs.Prelude.{◌≡◌, ◌<◌, ◌≤◌, ℕ, Some, None, Err, IfOk, OnOk, length};
ghost use Rattle.json.specs.Json.{value, items, members, parse_map};
ghost use Rattle.serde_json.specs.Data.{Data, array, no_members, put};
ghost use Rattle.serde_json.specs.Read.{of_json, of_items, of_members, converted};
ghost use Rattle.avro_schema.specs.Inside.Borrowed.{value_data, items_data, items_on, object_data};

use crate::borrowed::{
    Json, TreeObject, empty_object, find, is_reserved, put_reserved, reserve_two, text_of,
};
use crate::error::JsonError;
use crate::owned_values::{number_of, owned_items_at, owned_value_at};
use crate::owning::{owned_items, put_other};
use json::{Reader, Token};
use serde_json::Value;
use std::alloc::Global;

/// The role of a value, as far as the text before it shows. An object may be a record if its `type`
/// so far is missing or `"record"`.
#[derive(Clone, Copy)]
enum Role {
    /// the member `fields` of an object that may be a record
    FieldList,
    /// an item of such a list, if all earlier items are objects
    Field,
    Elsewhere,
}

/// The role of the first item of an array with this role.
fn role_of_items(array: Role) -> Role {
    match array {
        Role::FieldList => Role::Field,
        Role::Field | Role::Elsewhere => Role::Elsewhere,
    }
}

/// The role of the next item: it stays the same after an object, and is `Elsewhere` after any other
/// item.
fn role_after(role: Role, item: &Json<'_>) -> Role {
    match item {
        Json::Object(_) => role,
        Json::Null
        | Json::Bool(_)
        | Json::Number(_)
        | Json::Text(_)
        | Json::Array(_)
        | Json::Owned(_) => Role::Elsewhere,
    }
}

/// The role of the member `key` of an object whose members so far are `found`.
fn role_of_member(key: &str, found: &TreeObject<'_>) -> Role {
    if key != "fields" {
        return Role::Elsewhere;
    }
    match find(found, "type") {
        None => Role::FieldList,
        Some(value) => match text_of(value) {
            Some("record") => Role::FieldList,
            _ => Role::Elsewhere,
        },
    }
}

/// What remains of the budget after an object or an item of an array. Fields are cheap, so that all
/// fields that fit into a text fit into the tree.
fn after_value(budget: usize, role: Role) -> usize
    ensures { result ≤ budget }
{
    match role {
        Role::Field => budget.saturating_sub(1),
        Role::FieldList | Role::Elsewhere => budget.saturating_sub(20),
    }
}

/// Reads a value as a tree. `budget` limits the number of objects and of items of arrays in it: a
/// field costs 2, another object in an array 40, and any other item or object 20. It affects
/// only time and memory, so no contract mentions it.
///
/// # Errors
///
/// `Invalid` if the reader isn't at the start of a value that nests at most `depth` levels deep, and
/// `OutOfMemory` if allocation fails.
pub fn tree_at<'a>(
    alloc: Global,
    reader: &mut Reader<'a>,
    depth: usize,
    budget: usize,
) -> Result<Json<'a>, JsonError>
    ensures ok { IfOk result
        (λ v. converted of_json (value depth reader.old) ≡ Some (value_data v, reader.new)) }
    ensures invalid { result ≡ Err JsonError.Invalid
        → converted of_json (value depth reader.old) ≡ None }
{
    let mut left = budget;
    value_at(alloc, reader, depth, Role::Elsewhere, &mut left)
}

#[cycle(source)]
#[inline(always)]
fn value_at<'a>(
    alloc: Global,
    reader: &mut Reader<'a>,
    depth: usize,
    role: Role,
    budget: &mut usize,
) -> Result<Json<'a>, JsonError>
    ensures ok { IfOk result
        (λ v. converted of_json (value depth reader.old) ≡ Some (value_data v, reader.new)) }
    ensures shorter { OnOk result (length reader.new < length reader.old) }
    ensures invalid { result ≡ Err JsonError.Invalid
        → converted of_json (value depth reader.old) ≡ None }
{
    if *budget == 0 {
        return Ok(Json::Owned(owned_value_at(alloc, reader, depth)?));
    }
    let token = reader.next().ok_or(JsonError::Invalid)?;
    match token {
        Token::String(text) => Ok(Json::Text(text)),
        Token::Number(text) => match number_of(text) {
            Some(number) => Ok(Json::Number(number)),
            None => Err(JsonError::Invalid),
        },
        Token::Bool(b) => Ok(Json::Bool(b)),
        Token::Null => Ok(Json::Null),
        Token::EndObject | Token::EndArray | Token::Key(_) | Token::Bad => Err(JsonError::Invalid),
        Token::BeginArray => {
            if depth == 0 {
                return Err(JsonError::Invalid);
            }
            Ok(array_at(alloc, reader, depth - 1, role_of_items(role), budget)?)
        }
        Token::BeginObject => {
            if depth == 0 {
                return Err(JsonError::Invalid);
            }
            *budget = after_value(*budget, role);
            Ok(Json::Object(members_at(alloc, reader, depth - 1, budget)?))
        }
    }
}

/// Reads the rest of an array after the items `before`. The array becomes an owned value.
#[inline(never)]
fn owned_array_at<'a>(
    alloc: Global,
    before: Vec<Json<'_>>,
    reader: &mut Reader<'a>,
    depth: usize,
) -> Result<Json<'a>, JsonError>
    ensures ok { IfOk result (λ v. (n : ℕ) → length reader.old ≤ n
        → parse_map array (parse_map (items_on (items_data before.entry.items)) (converted of_items (items (value depth) n reader.old)))
        ≡ Some (value_data v, reader.new)) }
    ensures shorter { OnOk result (length reader.new < length reader.old) }
    ensures invalid { result ≡ Err JsonError.Invalid → (n : ℕ) → length reader.old ≤ n
        → converted of_items (items (value depth) n reader.old) ≡ None }
{
    let before = owned_items(alloc, before)?;
    Ok(Json::Owned(Value::Array(owned_items_at(alloc, before, reader, depth)?)))
}

/// Reads the rest of an array whose first item has the role `first`.
#[cycle(source)]
#[inline(never)]
fn array_at<'a>(
    alloc: Global,
    reader: &mut Reader<'a>,
    depth: usize,
    first: Role,
    budget: &mut usize,
) -> Result<Json<'a>, JsonError>
    ensures ok { IfOk result
        (λ v. parse_map array (converted of_items (items (value depth) (length reader.old) reader.old))
        ≡ Some (value_data v, reader.new)) }
    ensures shorter { OnOk result (length reader.new < length reader.old) }
    ensures invalid { result ≡ Err JsonError.Invalid
        → converted of_items (items (value depth) (length reader.old) reader.old) ≡ None }
{
    let mut found = Vec::new(alloc);
    let mut role = first;
    'items: while !reader.take_end_array() {
        if *budget == 0 {
            return owned_array_at(alloc, found, reader, depth);
        }
        let item = value_at(alloc, reader, depth, role, budget)?;
        role = role_after(role, &item);
        // `value_at` has already charged for an object. This charges for the item. It costs as little
        // as a field only if it is an object.
        *budget = after_value(*budget, role);
        reserve_two(&mut found)?;
        found.push(item)?;
    }
    Ok(Json::Array(found))
}

/// Reads the value of a member, and adds it to the object.
#[cycle(source)]
#[inline(always)]
fn member_at<'a>(
    alloc: Global,
    key: &'a str,
    found: &mut TreeObject<'a>,
    reader: &mut Reader<'a>,
    depth: usize,
    budget: &mut usize,
) -> Result<(), JsonError>
    ensures ok { OnOk result ((d : Data) × (converted of_json (value depth reader.old) ≡ Some (d, reader.new))
        × (object_data found.new ≡ put key.now d (object_data found.old))) }
    ensures shorter { OnOk result (length reader.new < length reader.old) }
    ensures invalid { result ≡ Err JsonError.Invalid
        → converted of_json (value depth reader.old) ≡ None }
{
    if is_reserved(key) {
        let role = role_of_member(key, &*found);
        let member = value_at(alloc, reader, depth, role, budget)?;
        put_reserved(found, key, member)?;
        return Ok(());
    }
    let member = owned_value_at(alloc, reader, depth)?;
    put_other(alloc, found, key, member)?;
    Ok(())
}

#[cycle(source)]
#[inline(never)]
fn members_at<'a>(
    alloc: Global,
    reader: &mut Reader<'a>,
    depth: usize,
    budget: &mut usize,
) -> Result<TreeObject<'a>, JsonError>
    ensures ok { IfOk result
        (λ m. converted (λ ms. of_members ms no_members)
        (members (value depth) (length reader.old) reader.old)
        ≡ Some (object_data m, reader.new)) }
    ensures shorter { OnOk result (length reader.new < length reader.old) }
    ensures invalid { result ≡ Err JsonError.Invalid
        → converted (λ ms. of_members ms no_members)
        (members (value depth) (length reader.old) reader.old) ≡ None }
{
    let mut found = empty_object(alloc);
    'members: while let Some(name) = reader.next_key()? {
        member_at(alloc, name, &mut found, reader, depth, budget)?;
    }
    Ok(found)
}
