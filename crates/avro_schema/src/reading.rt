//! Makes the nodes of a type from a JSON value.

ghost use Rattle.std.specs.Prelude.{length, map, OnOk};
ghost use Rattle.serde_json.specs.View.{view, items_view};
ghost use Rattle.avro_nodes.specs.Nodes.{field_view, nodes_view};
ghost use Rattle.avro_schema.specs.Inside.Borrowed.{value_data, items_data, members_data, list_data};
ghost use Rattle.avro_schema.specs.Inside.ValueReaders.{parts_of};
ghost use Rattle.avro_schema.specs.Inside.KindNumbers.{branch_view};
ghost use Rattle.avro_schema.specs.Inside.Types.{container_at, branch_of, union_at, field_of, record_at, object_at, form_at, type_at};
ghost use Rattle.avro_schema.specs.Inside.ReaderResults.{ReadsPart};
ghost use Rattle.avro_schema.specs.Inside.NameTables.{known_in, HasNumber, KeepsNumbers};

use crate::attribute_map::{Attributes, Items, attributes_of, take};
use crate::attributes::{take_items, take_text};
use crate::borrowed::Json;
use crate::definitions::{enum_at, fixed_at, named_of, next_place, other_attributes};
use crate::distinct::{are_names_distinct, are_numbers_distinct};
use crate::error::SchemaError;
use crate::field_attributes::field_attributes_of;
use crate::keywords::{Container, TypeKind, type_kind_of};
use crate::name_table::{NameTable, Namespace};
use crate::reading::kinds::{Branch, branch_kind, member_name};
use crate::reading::names::{name_at, primitive_at, reference_to};
use crate::reading::nodes::{container_node, field_from, fill_placeholder, placeholder};
use avro_nodes::{Field, Node, namespace_of};
use serde_json::Value;
use std::alloc::Global;

mod kinds;
mod names;
mod nodes;

/// The object of an array or a map, without `type`.
struct ContainerObject<'a> {
    container: Container,
    attributes: Attributes<'a>,
}

/// Reads a type that nests at most `depth` levels deep, and returns its place. The namespace
/// `space` encloses it.
///
/// # Errors
///
/// `TooLarge` if the type exceeds a limit, and `OutOfMemory` if allocation fails. Every other error
/// says why the value isn't a type (see `SchemaError`). After an error, some nodes may be in the
/// list and some names defined.
#[cycle(read)]
pub fn type_at(
    alloc: Global,
    value: Json<'_>,
    space: &Namespace,
    depth: u32,
    nodes: &mut Vec<Node>,
    known: &mut NameTable,
) -> Result<u32, SchemaError>
    requires { HasNumber known.old space.now }
    ensures read { ReadsPart (λ p. p) result
        (type_at depth space.now.text.now (value_data value.entry) (known_in known.old) (length nodes.old.items))
        (nodes_view nodes.old.items) (nodes_view nodes.new.items) (known_in known.new) }
    ensures kept { OnOk result (KeepsNumbers known.old known.new) }
{
    if depth == 0 {
        return Err(SchemaError::TooLarge);
    }
    match value {
        Json::Text(name) => name_at(alloc, name, space, nodes, known),
        Json::Array(items) => {
            union_at(alloc, Items::Tree(items), space, depth - 1, nodes, known)
        }
        Json::Object(object) => {
            let attributes = Attributes::Tree(object);
            object_at(alloc, attributes, space, depth - 1, nodes, known)
        }
        Json::Owned(value) => owned_type_at(alloc, value, space, depth - 1, nodes, known),
        Json::Null => Err(SchemaError::BadShape),
        Json::Bool(_) => Err(SchemaError::BadShape),
        Json::Number(_) => Err(SchemaError::BadShape),
    }
}

/// `type_at` for an owned value whose own level is already counted. The types inside it may nest at
/// most `depth` levels deep.
#[cycle(read)]
fn owned_type_at(
    alloc: Global,
    value: Value,
    space: &Namespace,
    depth: u32,
    nodes: &mut Vec<Node>,
    known: &mut NameTable,
) -> Result<u32, SchemaError>
    requires { HasNumber known.old space.now }
    ensures read { ReadsPart (λ p. p) result
        (form_at (type_at depth) space.now.text.now (view value) (known_in known.old) (length nodes.old.items))
        (nodes_view nodes.old.items) (nodes_view nodes.new.items) (known_in known.new) }
    ensures kept { OnOk result (KeepsNumbers known.old known.new) }
{
    match value {
        Value::String(name) => name_at(alloc, name.as_str(), space, nodes, known),
        Value::Array(values) => {
            union_at(alloc, Items::Owned(values), space, depth, nodes, known)
        }
        Value::Object(map) => {
            object_at(alloc, Attributes::Owned(map), space, depth, nodes, known)
        }
        Value::Null => Err(SchemaError::BadShape),
        Value::Bool(_) => Err(SchemaError::BadShape),
        Value::Number(_) => Err(SchemaError::BadShape),
    }
}

/// Reads a type that is declared by an object. The types inside it may nest at most `depth` levels
/// deep.
#[cycle(read)]
fn object_at(
    alloc: Global,
    object: Attributes<'_>,
    space: &Namespace,
    depth: u32,
    nodes: &mut Vec<Node>,
    known: &mut NameTable,
) -> Result<u32, SchemaError>
    requires { HasNumber known.old space.now }
    ensures read { ReadsPart (λ p. p) result
        (object_at (type_at depth) space.now.text.now (members_data object.entry) (known_in known.old) (length nodes.old.items))
        (nodes_view nodes.old.items) (nodes_view nodes.new.items) (known_in known.new) }
    ensures kept { OnOk result (KeepsNumbers known.old known.new) }
{
    let mut attributes = object;
    let name = take_text(alloc, &mut attributes, "type")?;
    match type_kind_of(name.as_str()) {
        TypeKind::Primitive(kind) => primitive_at(alloc, kind, attributes, nodes, known),
        TypeKind::Array => {
            let array = ContainerObject {
                container: Container::Items,
                attributes,
            };
            container_at(alloc, array, space, depth, nodes, known)
        }
        TypeKind::Map => {
            let map = ContainerObject {
                container: Container::Values,
                attributes,
            };
            container_at(alloc, map, space, depth, nodes, known)
        }
        TypeKind::Fixed => fixed_at(alloc, attributes, space.text, nodes, known),
        TypeKind::Enum => enum_at(alloc, attributes, space.text, nodes, known),
        TypeKind::Record => record_at(alloc, attributes, space, depth, nodes, known),
        TypeKind::Reference => {
            drop(other_attributes(alloc, attributes)?);
            reference_to(name.as_str(), space, nodes, known)
        }
    }
}

/// Reads an array or a map.
#[cycle(read)]
fn container_at(
    alloc: Global,
    object: ContainerObject<'_>,
    space: &Namespace,
    depth: u32,
    nodes: &mut Vec<Node>,
    known: &mut NameTable,
) -> Result<u32, SchemaError>
    requires { HasNumber known.old space.now }
    ensures read { ReadsPart (λ p. p) result
        (container_at object.entry.container (type_at depth space.now.text.now) (members_data object.entry.attributes) (known_in known.old) (length nodes.old.items))
        (nodes_view nodes.old.items) (nodes_view nodes.new.items) (known_in known.new) }
    ensures kept { OnOk result (KeepsNumbers known.old known.new) }
{
    let ContainerObject {
        container,
        attributes: mut rest,
    } = object;
    let place = next_place(nodes)?;
    let Some(inner) = take(&mut rest, member_name(container)) else {
        return Err(SchemaError::BadShape);
    };
    let extra = other_attributes(alloc, rest)?;
    nodes.push(placeholder(alloc))?;
    let within = type_at(alloc, inner, space, depth, nodes, known)?;
    fill_placeholder(nodes, place, container_node(container, within, extra));
    Ok(place)
}

#[cycle(read)]
fn union_at(
    alloc: Global,
    items: Items<'_>,
    space: &Namespace,
    depth: u32,
    nodes: &mut Vec<Node>,
    known: &mut NameTable,
) -> Result<u32, SchemaError>
    requires { HasNumber known.old space.now }
    ensures read { ReadsPart (λ p. p) result
        (union_at (type_at depth space.now.text.now) (list_data items.entry) (known_in known.old) (length nodes.old.items))
        (nodes_view nodes.old.items) (nodes_view nodes.new.items) (known_in known.new) }
    ensures kept { OnOk result (KeepsNumbers known.old known.new) }
{
    let place = next_place(nodes)?;
    nodes.push(placeholder(alloc))?;
    let read = branches_at(alloc, items, space, depth, nodes, known)?;
    let kinds = read
        .iter()
        .map(|branch| branch.kind_number())
        .collect(alloc)?;
    if !are_numbers_distinct(kinds) {
        return Err(SchemaError::BadUnion);
    }
    let branches = read.iter().map(|branch| branch.place).collect(alloc)?;
    fill_placeholder(nodes, place, Node::Union { branches });
    Ok(place)
}

#[cycle(read)]
fn branches_at(
    alloc: Global,
    items: Items<'_>,
    space: &Namespace,
    depth: u32,
    nodes: &mut Vec<Node>,
    known: &mut NameTable,
) -> Result<Vec<Branch>, SchemaError>
    requires { HasNumber known.old space.now }
    ensures read { ReadsPart (λ v. map branch_view v.items) result
        (parts_of (branch_of (type_at depth space.now.text.now)) (list_data items.entry) (known_in known.old) (length nodes.old.items))
        (nodes_view nodes.old.items) (nodes_view nodes.new.items) (known_in known.new) }
    ensures kept { OnOk result (KeepsNumbers known.old known.new) }
{
    match items {
        Items::Tree(items) => tree_branches_at(alloc, items, space, depth, nodes, known),
        Items::Owned(values) => owned_branches_at(alloc, values, space, depth, nodes, known),
    }
}

#[cycle(read)]
fn tree_branches_at(
    alloc: Global,
    items: Vec<Json<'_>>,
    space: &Namespace,
    depth: u32,
    nodes: &mut Vec<Node>,
    known: &mut NameTable,
) -> Result<Vec<Branch>, SchemaError>
    requires { HasNumber known.old space.now }
    ensures read { ReadsPart (λ v. map branch_view v.items) result
        (parts_of (branch_of (type_at depth space.now.text.now)) (items_data items.entry.items) (known_in known.old) (length nodes.old.items))
        (nodes_view nodes.old.items) (nodes_view nodes.new.items) (known_in known.new) }
    ensures kept { OnOk result (KeepsNumbers known.old known.new) }
{
    let mut branches = Vec::with_capacity(alloc, items.len())?;
    for item in items {
        branches.push(branch_at(alloc, item, space, depth, nodes, known)?)?;
    }
    Ok(branches)
}

#[cycle(read)]
fn owned_branches_at(
    alloc: Global,
    values: Vec<Value>,
    space: &Namespace,
    depth: u32,
    nodes: &mut Vec<Node>,
    known: &mut NameTable,
) -> Result<Vec<Branch>, SchemaError>
    requires { HasNumber known.old space.now }
    ensures read { ReadsPart (λ v. map branch_view v.items) result
        (parts_of (branch_of (type_at depth space.now.text.now)) (items_view values.items) (known_in known.old) (length nodes.old.items))
        (nodes_view nodes.old.items) (nodes_view nodes.new.items) (known_in known.new) }
    ensures kept { OnOk result (KeepsNumbers known.old known.new) }
{
    let mut branches = Vec::with_capacity(alloc, values.len())?;
    for value in values {
        let branch = Json::Owned(value);
        branches.push(branch_at(alloc, branch, space, depth, nodes, known)?)?;
    }
    Ok(branches)
}

/// Reads a branch of a union: its place and its kind.
#[cycle(read)]
fn branch_at(
    alloc: Global,
    value: Json<'_>,
    space: &Namespace,
    depth: u32,
    nodes: &mut Vec<Node>,
    known: &mut NameTable,
) -> Result<Branch, SchemaError>
    requires { HasNumber known.old space.now }
    ensures read { ReadsPart branch_view result
        (branch_of (type_at depth space.now.text.now) (value_data value.entry) (known_in known.old) (length nodes.old.items))
        (nodes_view nodes.old.items) (nodes_view nodes.new.items) (known_in known.new) }
    ensures kept { OnOk result (KeepsNumbers known.old known.new) }
{
    let before = nodes.len();
    let place = type_at(alloc, value, space, depth, nodes, known)?;
    let Some(kind) = branch_kind(&nodes[before..]) else {
        return Err(SchemaError::BadUnion);
    };
    Ok(Branch { place, kind })
}

#[cycle(read)]
fn record_at(
    alloc: Global,
    attributes: Attributes<'_>,
    space: &Namespace,
    depth: u32,
    nodes: &mut Vec<Node>,
    known: &mut NameTable,
) -> Result<u32, SchemaError>
    requires { HasNumber known.old space.now }
    ensures read { ReadsPart (λ p. p) result
        (record_at (type_at depth) space.now.text.now (members_data attributes.entry) (known_in known.old) (length nodes.old.items))
        (nodes_view nodes.old.items) (nodes_view nodes.new.items) (known_in known.new) }
    ensures kept { OnOk result (KeepsNumbers known.old known.new) }
{
    let mut rest = attributes;
    let place = next_place(nodes)?;
    let named = named_of(alloc, &mut rest, space.text, known)?;
    let items = take_items(&mut rest, "fields")?;
    let extra = other_attributes(alloc, rest)?;
    nodes.push(placeholder(alloc))?;
    let number = known.define(alloc, named.name.as_str(), place)?;
    let inside = Namespace {
        text: namespace_of(named.name.as_str()),
        number,
    };
    let fields = fields_at(alloc, items, &inside, depth, nodes, known)?;
    if !are_names_distinct(alloc, &fields)? {
        return Err(SchemaError::Redefined);
    }
    let node = Node::Rec {
        named,
        fields,
        extra,
    };
    fill_placeholder(nodes, place, node);
    Ok(place)
}

#[cycle(read)]
fn fields_at(
    alloc: Global,
    items: Items<'_>,
    space: &Namespace,
    depth: u32,
    nodes: &mut Vec<Node>,
    known: &mut NameTable,
) -> Result<Vec<Field>, SchemaError>
    requires { HasNumber known.old space.now }
    ensures read { ReadsPart (λ v. map field_view v.items) result
        (parts_of (field_of (type_at depth space.now.text.now)) (list_data items.entry) (known_in known.old) (length nodes.old.items))
        (nodes_view nodes.old.items) (nodes_view nodes.new.items) (known_in known.new) }
    ensures kept { OnOk result (KeepsNumbers known.old known.new) }
{
    match items {
        Items::Tree(items) => tree_fields_at(alloc, items, space, depth, nodes, known),
        Items::Owned(values) => owned_fields_at(alloc, values, space, depth, nodes, known),
    }
}

#[cycle(read)]
fn tree_fields_at(
    alloc: Global,
    items: Vec<Json<'_>>,
    space: &Namespace,
    depth: u32,
    nodes: &mut Vec<Node>,
    known: &mut NameTable,
) -> Result<Vec<Field>, SchemaError>
    requires { HasNumber known.old space.now }
    ensures read { ReadsPart (λ v. map field_view v.items) result
        (parts_of (field_of (type_at depth space.now.text.now)) (items_data items.entry.items) (known_in known.old) (length nodes.old.items))
        (nodes_view nodes.old.items) (nodes_view nodes.new.items) (known_in known.new) }
    ensures kept { OnOk result (KeepsNumbers known.old known.new) }
{
    let mut fields = Vec::with_capacity(alloc, items.len())?;
    for item in items {
        fields.push(field_at(alloc, item, space, depth, nodes, known)?)?;
    }
    Ok(fields)
}

#[cycle(read)]
fn owned_fields_at(
    alloc: Global,
    values: Vec<Value>,
    space: &Namespace,
    depth: u32,
    nodes: &mut Vec<Node>,
    known: &mut NameTable,
) -> Result<Vec<Field>, SchemaError>
    requires { HasNumber known.old space.now }
    ensures read { ReadsPart (λ v. map field_view v.items) result
        (parts_of (field_of (type_at depth space.now.text.now)) (items_view values.items) (known_in known.old) (length nodes.old.items))
        (nodes_view nodes.old.items) (nodes_view nodes.new.items) (known_in known.new) }
    ensures kept { OnOk result (KeepsNumbers known.old known.new) }
{
    let mut fields = Vec::with_capacity(alloc, values.len())?;
    for value in values {
        let field = Json::Owned(value);
        fields.push(field_at(alloc, field, space, depth, nodes, known)?)?;
    }
    Ok(fields)
}

/// Reads a field of a record with the namespace `space`, and adds the nodes of its type.
///
/// # Errors
///
/// `BadShape` if the value isn't an object. Then the errors of `field_attributes_of`. Then `BadShape`
/// if `type` is missing, `TooLarge` if another attribute nests too deep, and the errors of `type_at`.
/// `OutOfMemory` if allocation fails. After an error, some nodes may be added and some names defined.
#[cycle(read)]
fn field_at(
    alloc: Global,
    value: Json<'_>,
    space: &Namespace,
    depth: u32,
    nodes: &mut Vec<Node>,
    known: &mut NameTable,
) -> Result<Field, SchemaError>
    requires { HasNumber known.old space.now }
    ensures read { ReadsPart field_view result
        (field_of (type_at depth space.now.text.now) (value_data value.entry) (known_in known.old) (length nodes.old.items))
        (nodes_view nodes.old.items) (nodes_view nodes.new.items) (known_in known.new) }
    ensures kept { OnOk result (KeepsNumbers known.old known.new) }
{
    let Some(mut rest) = attributes_of(value) else {
        return Err(SchemaError::BadShape);
    };
    // Most fields list `name` before `type`, and lookups start at the end. So `type` is removed
    // first.
    let inner = take(&mut rest, "type");
    let label = field_attributes_of(alloc, &mut rest)?;
    let Some(inner) = inner else {
        return Err(SchemaError::BadShape);
    };
    let extra = other_attributes(alloc, rest)?;
    let place = type_at(alloc, inner, space, depth, nodes, known)?;
    Ok(field_from(label, place, extra))
}
