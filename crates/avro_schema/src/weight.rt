//! The bytes that the names of a value's definitions will take. A short name or alias gets its
//! namespace added, so nodes may take far more bytes than their text.

ghost use Rattle.std.specs.Prelude.{IsTrue, ◌≡◌, ◌-◌, length, option_map, nat_le, codes, []};
ghost use Rattle.serde_json.specs.Find.{get_member};
ghost use Rattle.serde_json.specs.View.{view};
ghost use Rattle.avro_nodes.specs.Limits.{max_nesting, max_text};
ghost use Rattle.avro_schema.specs.Attributes.{text_in, array_in};
ghost use Rattle.avro_schema.specs.Inside.Reserved.{is_reserved_name};
ghost use Rattle.avro_schema.specs.Inside.Borrowed.{value_data};
ghost use Rattle.avro_schema.specs.Inside.References.{ref_data, items_ref_data, object_ref_data};
ghost use Rattle.avro_schema.specs.Inside.Weight.{map_or_zero, items_size, full_name_in, alias_size, namespace_in, definition_names_size, enum_or_fixed_size, field_size, record_size, object_size, weight};

use crate::borrowed::Json;
use crate::keywords::{TypeKind, type_kind_of};
use crate::references::{ItemsRef, ObjectRef, ValueRef, find, items_of, object_of, text_of};
use avro_nodes::{MAX_NESTING, MAX_TEXT, has_dot, namespace_of};
use serde_json::Value;

/// The attribute with this name, if it is a string.
#[tactic(auto, unfolding(crate::specs::Attributes::text_in))]
fn text_at<'t>(members: ObjectRef<'t, '_>, key: &str) -> Option<&'t str>
    requires { IsTrue (is_reserved_name key.now) }
    ensures { option_map (λ s. s.now) result ≡ text_in key.now (object_ref_data members.entry) }
{
    match find(members, key) {
        Some(value) => text_of(value),
        None => None,
    }
}

/// The attribute with this name, if it is an array.
#[tactic(auto, unfolding(crate::specs::Attributes::array_in))]
fn items_at<'t, 'a>(members: ObjectRef<'t, 'a>, key: &str) -> Option<ItemsRef<'t, 'a>>
    requires { IsTrue (is_reserved_name key.now) }
    ensures { option_map items_ref_data result ≡ array_in key.now (object_ref_data members.entry) }
{
    match find(members, key) {
        Some(value) => items_of(value),
        None => None,
    }
}

/// The bytes of a budget that remain after the full name of this name in the namespace. Each
/// function `after_..` here returns 0 if the budget is too small.
#[tactic(auto, unfolding(crate::specs::Inside::Weight::full_name_in, crate::specs::Names::qualified))]
fn after_name(budget: usize, name: &str, space: &str) -> usize
    ensures { result ≡ budget - length (full_name_in space.now name.now) }
{
    let rest = budget.saturating_sub(name.len());
    if has_dot(name) || space.is_empty() {
        rest
    } else {
        rest.saturating_sub(space.len()).saturating_sub(1)
    }
}

/// What remains after an alias of a type in the namespace.
fn after_alias(budget: usize, alias: ValueRef<'_, '_>, space: &str) -> usize
    ensures { result ≡ budget - alias_size space.now (ref_data alias.entry) }
{
    match text_of(alias) {
        Some(name) => after_name(budget, name, space),
        None => budget,
    }
}

fn after_aliases(budget: usize, aliases: ItemsRef<'_, '_>, space: &str) -> usize
    ensures { result ≡ budget - items_size (alias_size space.now) (items_ref_data aliases.entry) }
{
    let mut rest = budget;
    match aliases {
        ItemsRef::Tree(items) => {
            'tree: for item in items {
                rest = after_alias(rest, ValueRef::Tree(item), space);
            }
        }
        ItemsRef::Owned(values) => {
            'owned: for value in values {
                rest = after_alias(rest, ValueRef::Owned(value), space);
            }
        }
    }
    rest
}

/// The namespace of a definition with this name, declared inside the namespace `enclosing`.
#[tactic(auto, unfolding(crate::specs::Inside::Weight::namespace_in))]
fn definition_namespace<'t>(
    members: ObjectRef<'t, '_>,
    name: &'t str,
    enclosing: &'t str,
) -> &'t str
    ensures { result.now ≡ namespace_in enclosing.now name.now (object_ref_data members.entry) }
{
    if has_dot(name) {
        return namespace_of(name);
    }
    match text_at(members, "namespace") {
        Some(space) => space,
        None => enclosing,
    }
}

/// What remains after the name and the aliases of a definition in the namespace.
#[tactic(auto, unfolding(crate::specs::Inside::Weight::definition_names_size))]
fn after_names(budget: usize, members: ObjectRef<'_, '_>, name: &str, space: &str) -> usize
    ensures { result ≡ budget - definition_names_size space.now name.now (object_ref_data members.entry) }
{
    let rest = after_name(budget, name, space);
    match items_at(members, "aliases") {
        Some(aliases) => after_aliases(rest, aliases, space),
        None => rest,
    }
}

/// What remains after a definition without types inside it.
#[tactic(auto, unfolding(crate::specs::Inside::Weight::enum_or_fixed_size))]
fn after_definition(budget: usize, members: ObjectRef<'_, '_>, enclosing: &str) -> usize
    ensures { result ≡ budget - enum_or_fixed_size enclosing.now (object_ref_data members.entry) }
{
    match text_at(members, "name") {
        Some(name) => after_names(
            budget,
            members,
            name,
            definition_namespace(members, name, enclosing),
        ),
        None => budget,
    }
}

/// What remains of the budget of bytes after the full names and full aliases of all definitions in a
/// type. It is 0 if the budget is too small. Only the outermost `depth` levels of the type count.
/// `space` is the enclosing namespace.
#[cycle(weigh)]
#[tactic(auto, unfolding(crate::specs::Inside::Weight::weight))]
fn after_type(budget: usize, value: ValueRef<'_, '_>, space: &str, depth: u32) -> usize
    ensures { result ≡ budget - weight depth space.now (ref_data value.entry) }
{
    match value {
        ValueRef::Tree(value) => after_tree_type(budget, value, space, depth),
        ValueRef::Owned(value) => after_owned_type(budget, value, space, depth),
    }
}

#[cycle(weigh)]
#[tactic(auto, unfolding(crate::specs::Inside::Weight::weight))]
fn after_tree_type(budget: usize, value: &Json<'_>, space: &str, depth: u32) -> usize
    ensures { result ≡ budget - weight depth space.now (value_data value.now) }
{
    if depth == 0 {
        return budget;
    }
    match value {
        Json::Array(items) => after_branches(budget, ItemsRef::Tree(items), space, depth - 1),
        Json::Object(object) => after_object(budget, ObjectRef::Tree(object), space, depth - 1),
        Json::Owned(value) => after_owned_type(budget, value, space, depth),
        Json::Null | Json::Bool(_) | Json::Number(_) | Json::Text(_) => budget,
    }
}

#[cycle(weigh)]
#[tactic(auto, unfolding(crate::specs::Inside::Weight::weight))]
fn after_owned_type(budget: usize, value: &Value, space: &str, depth: u32) -> usize
    ensures { result ≡ budget - weight depth space.now (view value.now) }
{
    if depth == 0 {
        return budget;
    }
    match value {
        Value::Array(items) => after_branches(budget, ItemsRef::Owned(items), space, depth - 1),
        Value::Object(map) => after_object(budget, ObjectRef::Owned(map), space, depth - 1),
        Value::Null | Value::Bool(_) | Value::Number(_) | Value::String(_) => budget,
    }
}

/// What remains after the type. Without a type, the whole budget remains.
#[cycle(weigh)]
fn after_type_if_any(
    budget: usize,
    value: Option<ValueRef<'_, '_>>,
    space: &str,
    depth: u32,
) -> usize
    ensures { result ≡ budget - map_or_zero (weight depth space.now) (option_map ref_data value.entry) }
{
    match value {
        Some(value) => after_type(budget, value, space, depth),
        None => budget,
    }
}

#[cycle(weigh)]
fn after_branches(budget: usize, branches: ItemsRef<'_, '_>, space: &str, depth: u32) -> usize
    ensures { result ≡ budget - items_size (weight depth space.now) (items_ref_data branches.entry) }
{
    let mut rest = budget;
    match branches {
        ItemsRef::Tree(items) => {
            'tree: for item in items {
                rest = after_type(rest, ValueRef::Tree(item), space, depth);
            }
        }
        ItemsRef::Owned(values) => {
            'owned: for value in values {
                rest = after_type(rest, ValueRef::Owned(value), space, depth);
            }
        }
    }
    rest
}

#[cycle(weigh)]
#[tactic(auto, unfolding(crate::specs::Inside::Weight::object_size))]
fn after_object(budget: usize, members: ObjectRef<'_, '_>, space: &str, depth: u32) -> usize
    ensures { result ≡ budget - object_size (weight depth) space.now (object_ref_data members.entry) }
{
    let Some(name) = text_at(members, "type") else {
        return budget;
    };
    match type_kind_of(name) {
        TypeKind::Primitive(_) | TypeKind::Reference => budget,
        TypeKind::Array => after_type_if_any(budget, find(members, "items"), space, depth),
        TypeKind::Map => after_type_if_any(budget, find(members, "values"), space, depth),
        TypeKind::Fixed | TypeKind::Enum => after_definition(budget, members, space),
        TypeKind::Record => after_record(budget, members, space, depth),
    }
}

#[cycle(weigh)]
#[tactic(auto, unfolding(crate::specs::Inside::Weight::record_size))]
fn after_record(budget: usize, members: ObjectRef<'_, '_>, enclosing: &str, depth: u32) -> usize
    ensures { result ≡ budget - record_size (weight depth) enclosing.now (object_ref_data members.entry) }
{
    let Some(name) = text_at(members, "name") else {
        return budget;
    };
    let space = definition_namespace(members, name, enclosing);
    let rest = after_names(budget, members, name, space);
    match items_at(members, "fields") {
        Some(fields) => after_fields(rest, fields, space, depth),
        None => rest,
    }
}

/// What remains of the budget after the definitions in the types of a record's fields. `space` is the
/// record's namespace. A field's own name and aliases take nothing. A field that isn't an object, or
/// has no `type`, takes nothing either.
#[cycle(weigh)]
fn after_fields(budget: usize, fields: ItemsRef<'_, '_>, space: &str, depth: u32) -> usize
    ensures { result ≡ budget - items_size (field_size (weight depth space.now)) (items_ref_data fields.entry) }
{
    let mut rest = budget;
    match fields {
        ItemsRef::Tree(items) => {
            'tree: for item in items {
                rest = after_field(rest, ValueRef::Tree(item), space, depth);
            }
        }
        ItemsRef::Owned(values) => {
            'owned: for value in values {
                rest = after_field(rest, ValueRef::Owned(value), space, depth);
            }
        }
    }
    rest
}

#[cycle(weigh)]
fn after_field(budget: usize, field: ValueRef<'_, '_>, space: &str, depth: u32) -> usize
    ensures { result ≡ budget - field_size (weight depth space.now) (ref_data field.entry) }
{
    match object_of(field) {
        Some(members) => after_type_if_any(budget, find(members, "type"), space, depth),
        None => budget,
    }
}

/// Whether the full names and full aliases of the value's definitions together fit in the maximum
/// length of a text. The identity text contains them, so it would be too long otherwise.
pub fn names_fit(value: &Json<'_>) -> bool
    ensures { result ≡ nat_le (weight max_nesting [] (value_data value.now)) max_text }
{
    after_tree_type(MAX_TEXT + 1, value, "", MAX_NESTING) > 0
}
