//! The identity text of a schema: a compact JSON text of its nodes. It contains each definition at
//! its first occurrence, and types by their full names (Avro 1.11 specification, Schema
//! Declaration, Names; the form is this project's choice).

ghost use Rattle.std.specs.Prelude.{IsTrue, ◌≡◌, ◌<◌, ◌≤◌, length, option_map, string_bytes, slice_get, IfSome, IfOk, OnOk, map};
ghost use Rattle.avro_nodes.specs.Whole.{has_whole_numbers};
ghost use Rattle.avro_nodes.specs.Nodes.{field_view, node_view, nodes_view};
ghost use Rattle.avro_nodes.specs.Identity.{name_of, identity_at, branch_items, field_items, identity, nodes_pass};
ghost use Rattle.avro_nodes.specs.Inside.Objects.{WritesCounted, counted_array};

use crate::compact::CompactWriter;
use crate::error::OutOfMemory;
use crate::identity::types::{
    begin_array, begin_field, begin_map, begin_record, end_array, end_record, write_enum,
    write_fixed, write_primitive,
};
use crate::limits::MAX_NESTING;
use crate::names::namespace_of;
use crate::node::{Field, Node};
use crate::value::write_rest;
use std::alloc::{AllocError, Global};

mod types;

/// The full name of the type at the place; empty for a type without a name, or without a node.
fn name_of(nodes: &[Node], place: usize) -> &str
    ensures { result.now ≡ name_of (slice_get (nodes_view nodes.now) place) }
{
    match nodes.get(place) {
        None => "",
        Some(node) => match node {
            Node::Primitive { .. } => "",
            Node::Array { .. } => "",
            Node::Map { .. } => "",
            Node::Union { .. } => "",
            Node::Enum { named, .. } => named.name.as_str(),
            Node::Fixed { named, .. } => named.name.as_str(),
            Node::Rec { named, .. } => named.name.as_str(),
        },
    }
}

fn node_at(nodes: &[Node], place: usize) -> Option<&Node>
    ensures value { option_map (λ n. node_view n.now) result ≡ slice_get (nodes_view nodes.now) place }
    ensures within { IfSome result (λ _. place < length nodes.now) }
{
    nodes.get(place)
}

/// Writes the type at a place. If `place` is the next place that isn't written yet, it writes the
/// type in full, else the type's full name. `written` is the number of places written so far. At
/// depth 0, and for the next place if it has no node, it writes `null`. The nodes of a schema reach
/// neither.
#[cycle(spell)]
fn write_type(
    out: &mut CompactWriter,
    nodes: &[Node],
    enclosing: &str,
    place: u32,
    written: &mut usize,
    depth: u32,
) -> Result<(), AllocError>
    requires { written.old ≤ length nodes.now }
    ensures value { OnOk result (WritesCounted
        (identity_at depth (nodes_view nodes.now) enclosing.now place written.old)
        out.old out.new written.new) }
    ensures bound { written.new ≤ length nodes.now }
{
    if depth == 0 {
        return out.null();
    }
    let at = place as usize;
    if at != *written {
        return out.string(name_of(nodes, at));
    }
    let Some(node) = node_at(nodes, at) else {
        return out.null();
    };
    *written += 1;
    match node {
        Node::Primitive { kind, extra } => write_primitive(out, *kind, extra),
        Node::Array { items, extra } => {
            let others = begin_array(out, extra)?;
            write_type(out, nodes, enclosing, *items, written, depth - 1)?;
            end_array(out, others)
        }
        Node::Map { values, extra } => {
            let others = begin_map(out, extra)?;
            write_type(out, nodes, enclosing, *values, written, depth - 1)?;
            write_rest(out, others)
        }
        Node::Union { branches } => {
            write_branches(out, nodes, enclosing, branches, written, depth - 1)
        }
        Node::Enum {
            named,
            symbols,
            fallback,
            extra,
        } => write_enum(out, enclosing, named, symbols, fallback, extra),
        Node::Fixed { named, size, extra } => write_fixed(out, enclosing, named, *size, extra),
        Node::Rec {
            named,
            fields,
            extra,
        } => {
            let name = named.name.as_str();
            let others = begin_record(out, named, extra)?;
            write_fields(out, nodes, namespace_of(name), fields, written, depth - 1)?;
            end_record(out, others, enclosing, name)
        }
    }
}

#[cycle(spell)]
fn write_branches(
    out: &mut CompactWriter,
    nodes: &[Node],
    enclosing: &str,
    places: &[u32],
    written: &mut usize,
    depth: u32,
) -> Result<(), AllocError>
    requires { written.old ≤ length nodes.now }
    ensures value { OnOk result (WritesCounted (counted_array
        (branch_items (identity_at depth (nodes_view nodes.now) enclosing.now) places.now written.old))
        out.old out.new written.new) }
    ensures bound { written.new ≤ length nodes.now }
{
    out.begin_array()?;
    for place in places {
        write_type(out, nodes, enclosing, *place, written, depth)?;
    }
    out.end_array()
}

#[cycle(spell)]
fn write_fields(
    out: &mut CompactWriter,
    nodes: &[Node],
    enclosing: &str,
    fields: &[Field],
    written: &mut usize,
    depth: u32,
) -> Result<(), AllocError>
    requires { written.old ≤ length nodes.now }
    ensures value { OnOk result (WritesCounted (counted_array (field_items
        (identity_at depth (nodes_view nodes.now) enclosing.now) (map field_view fields.now) written.old))
        out.old out.new written.new) }
    ensures bound { written.new ≤ length nodes.now }
{
    out.begin_array()?;
    for field in fields {
        let others = begin_field(out, field)?;
        write_type(out, nodes, enclosing, field.place, written, depth)?;
        write_rest(out, others)?;
    }
    out.end_array()
}

/// Returns the identity text of a schema's nodes. It is compact JSON, and the members of each
/// object are in byte order of their names. A definition is written in full at its first
/// occurrence, and by its full name afterwards (this project's choice of form). Two schemas are the
/// same if these texts are equal.
///
/// The nodes must be those of a schema: numbered depth first, with types nested at most
/// `MAX_NESTING` deep. A float in a default or another attribute is written, but no clause says
/// how.
///
/// # Errors
///
/// `OutOfMemory` if an allocation for the text fails.
pub fn identity_of(alloc: Global, nodes: &[Node]) -> Result<String, OutOfMemory>
    ensures text { IfOk result (λ s. IsTrue (nodes_pass has_whole_numbers (nodes_view nodes.now))
        → string_bytes s ≡ identity (nodes_view nodes.now)) }
{
    let mut out = CompactWriter::new(alloc)?;
    let mut written = 0;
    write_type(&mut out, nodes, "", 0, &mut written, MAX_NESTING)?;
    Ok(out.into_string())
}
