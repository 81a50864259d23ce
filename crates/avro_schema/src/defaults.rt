//! Which JSON values fit a type as a default value.

ghost use Rattle.std.specs.Prelude.{◌≡◌, map, Some, IfOk, IfSome, slice_get, string_bytes};
ghost use Rattle.std.specs.List.{list_all};
ghost use Rattle.serde_json.specs.Find.{get_member};
ghost use Rattle.serde_json.specs.View.{view, items_view, members_view};
ghost use Rattle.avro_nodes.specs.Nodes.{field_view, node_view, nodes_view};
ghost use Rattle.avro_schema.specs.Inside.Fitting.{items_fit, members_fit, field_fits_by, fields_fit, node_fits, fits, node_defaults_fit};
ghost use Rattle.avro_schema.specs.Inside.FieldTables.{IsFieldTable, IsFieldTableOf, AreFieldTables, fits_if_any, index_fits, named_fit};

use crate::defaults::fields::node_default_fits;
use crate::defaults::lookups::{default_type, table_at};
use crate::defaults::primitives::{is_bytes_of, primitive_fits};
use crate::references::member_of;
use crate::tables::{FieldTable, tables_of};
use avro_nodes::{Field, Members, Node};
use serde_json::Value;
use std::alloc::{AllocError, Global};

mod fields;
mod lookups;
mod primitives;

/// Whether the value fits the type at the place. Nothing fits at depth 0, so `depth` must be
/// greater than the nesting depth of the value.
#[cycle(fit)]
#[tactic(auto, unfolding(crate::specs::Inside::Fitting::fits))]
pub fn fits(
    value: &Value,
    place: u32,
    nodes: &[Node],
    tables: &[Option<FieldTable>],
    depth: u32,
) -> bool
    requires tables { AreFieldTables (nodes_view nodes.now) tables.now }
    ensures { result ≡ fits depth (nodes_view nodes.now) (view value.now) place }
{
    if depth == 0 {
        return false;
    }
    match default_type(nodes, place) {
        Some((at, node)) => {
            let table = table_at(tables, at, nodes, node);
            node_fits(value, node, table, nodes, tables, depth - 1)
        }
        None => false,
    }
}

/// Whether the value fits the node. For a record, `table` is the table of its fields, if it was
/// made. Nothing fits a union itself: the caller passes the union's first branch. Any string fits
/// an enum. The values inside must nest less than `depth` levels deep.
#[cycle(fit)]
fn node_fits(
    value: &Value,
    node: &Node,
    table: Option<&FieldTable>,
    nodes: &[Node],
    tables: &[Option<FieldTable>],
    depth: u32,
) -> bool
    requires tables { AreFieldTables (nodes_view nodes.now) tables.now }
    requires table { IfSome table (λ t. IsFieldTableOf t.now (node_view node.now)) }
    ensures { result ≡ node_fits (fits depth (nodes_view nodes.now)) (view value.now) (Some (node_view node.now)) }
{
    match node {
        Node::Primitive { kind, .. } => primitive_fits(value, *kind),
        Node::Array { items, .. } => match value.as_array() {
            Some(values) => items_fit(values, *items, nodes, tables, depth),
            None => false,
        },
        Node::Map { values, .. } => match value.as_object() {
            Some(members) => members_fit(members, *values, nodes, tables, depth),
            None => false,
        },
        Node::Union { .. } => false,
        Node::Enum { .. } => value.is_string(),
        Node::Fixed { size, .. } => match value.as_str() {
            Some(text) => is_bytes_of(text, *size),
            None => false,
        },
        Node::Rec { fields, .. } => match value.as_object() {
            Some(members) => match table {
                Some(table) => table_fits(members, fields, table, nodes, tables, depth),
                None => fields_fit(members, fields, nodes, tables, depth),
            },
            None => false,
        },
    }
}

#[cycle(fit)]
fn items_fit(
    values: &Vec<Value>,
    place: u32,
    nodes: &[Node],
    tables: &[Option<FieldTable>],
    depth: u32,
) -> bool
    requires tables { AreFieldTables (nodes_view nodes.now) tables.now }
    ensures { result ≡ items_fit (fits depth (nodes_view nodes.now)) (items_view values.now.items) place }
{
    for value in values {
        if !fits(value, place, nodes, tables, depth) {
            return false;
        }
    }
    true
}

#[cycle(fit)]
fn members_fit(
    members: &Members,
    place: u32,
    nodes: &[Node],
    tables: &[Option<FieldTable>],
    depth: u32,
) -> bool
    requires tables { AreFieldTables (nodes_view nodes.now) tables.now }
    ensures { result ≡ members_fit (fits depth (nodes_view nodes.now)) (members_view members.now.entries) place }
{
    for (_key, value) in members.iter() {
        if !fits(value, place, nodes, tables, depth) {
            return false;
        }
    }
    true
}

#[cycle(fit)]
fn fields_fit(
    members: &Members,
    fields: &Vec<Field>,
    nodes: &[Node],
    tables: &[Option<FieldTable>],
    depth: u32,
) -> bool
    requires tables { AreFieldTables (nodes_view nodes.now) tables.now }
    ensures { result ≡ fields_fit (fits depth (nodes_view nodes.now)) (members_view members.now.entries) (map field_view fields.now.items) }
{
    for field in fields {
        if !field_fits(members, field, nodes, tables, depth) {
            return false;
        }
    }
    true
}

/// The same by the table: checks the required fields, and those that the members name.
#[cycle(fit)]
fn table_fits(
    members: &Members,
    fields: &Vec<Field>,
    table: &FieldTable,
    nodes: &[Node],
    tables: &[Option<FieldTable>],
    depth: u32,
) -> bool
    requires tables { AreFieldTables (nodes_view nodes.now) tables.now }
    requires table { IsFieldTable table.now (map field_view fields.now.items) }
    ensures { result ≡ fields_fit (fits depth (nodes_view nodes.now)) (members_view members.now.entries) (map field_view fields.now.items) }
{
    required_fit(members, fields, &table.required, nodes, tables, depth)
        && named_fit(members, fields, table, nodes, tables, depth)
}

#[cycle(fit)]
fn required_fit(
    members: &Members,
    fields: &Vec<Field>,
    required: &Vec<usize>,
    nodes: &[Node],
    tables: &[Option<FieldTable>],
    depth: u32,
) -> bool
    requires tables { AreFieldTables (nodes_view nodes.now) tables.now }
    ensures { result ≡ list_all (λ i. fits_if_any (fits depth (nodes_view nodes.now)) (members_view members.now.entries) (slice_get (map field_view fields.now.items) i)) required.now.items }
{
    for at in required {
        if !index_fits(members, fields, Some(*at), nodes, tables, depth) {
            return false;
        }
    }
    true
}

#[cycle(fit)]
fn named_fit(
    members: &Members,
    fields: &Vec<Field>,
    table: &FieldTable,
    nodes: &[Node],
    tables: &[Option<FieldTable>],
    depth: u32,
) -> bool
    requires tables { AreFieldTables (nodes_view nodes.now) tables.now }
    ensures { result ≡ named_fit (fits depth (nodes_view nodes.now)) (members_view members.now.entries) (map field_view fields.now.items) table.now (members_view members.now.entries) }
{
    for (key, _value) in members.iter() {
        if !index_fits(
            members,
            fields,
            table.field_index(key.as_str()),
            nodes,
            tables,
            depth,
        ) {
            return false;
        }
    }
    true
}

/// `field_fits` for the field at the index. `true` without an index, or if it is out of range.
#[cycle(fit)]
fn index_fits(
    members: &Members,
    fields: &Vec<Field>,
    at: Option<usize>,
    nodes: &[Node],
    tables: &[Option<FieldTable>],
    depth: u32,
) -> bool
    requires tables { AreFieldTables (nodes_view nodes.now) tables.now }
    ensures { result ≡ index_fits (fits depth (nodes_view nodes.now)) (members_view members.now.entries) (map field_view fields.now.items) at }
{
    let Some(at) = at else {
        return true;
    };
    match fields.get(at) {
        Some(field) => field_fits(members, field, nodes, tables, depth),
        None => true,
    }
}

/// Whether the member with the field's name fits the field. If it is missing, whether the field has
/// a default.
#[cycle(fit)]
fn field_fits(
    members: &Members,
    field: &Field,
    nodes: &[Node],
    tables: &[Option<FieldTable>],
    depth: u32,
) -> bool
    requires tables { AreFieldTables (nodes_view nodes.now) tables.now }
    ensures { result ≡ field_fits_by (fits depth (nodes_view nodes.now)) (field_view field.now) (get_member (string_bytes field.now.name) (members_view members.now.entries)) }
{
    match member_of(members, field.name.as_str()) {
        Some(value) => fits(value, field.place, nodes, tables, depth),
        None => field.value.is_some(),
    }
}

/// Whether every default fits its field.
///
/// # Errors
///
/// `AllocError` if allocation of the field tables fails.
pub fn defaults_fit(alloc: Global, nodes: &[Node]) -> Result<bool, AllocError>
    ensures { IfOk result (λ b. b ≡ node_defaults_fit (nodes_view nodes.now) (nodes_view nodes.now)) }
{
    let tables = tables_of(alloc, nodes)?;
    for node in nodes {
        if !node_default_fits(node, nodes, &tables) {
            return Ok(false);
        }
    }
    Ok(true)
}
