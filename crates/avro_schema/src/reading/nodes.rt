//! Makes nodes from their parts.

ghost use Rattle.std.specs.Prelude.{◌≡◌, ◌<◌, length, slice_set};
ghost use Rattle.serde_json.specs.View.{members_view};
ghost use Rattle.avro_nodes.specs.Nodes.{field_view, node_view, nodes_view};
ghost use Rattle.avro_schema.specs.Inside.Types.{container_node, field_at};
ghost use Rattle.avro_schema.specs.Inside.Declarations.{field_attributes_view};

use crate::field_attributes::FieldAttributes;
use crate::keywords::Container;
use avro_nodes::{Field, Members, Node};
use std::alloc::Global;

/// The node of an array or a map whose items or values have the type at `place`.
pub fn container_node(container: Container, place: u32, extra: Members) -> Node
    ensures { node_view result ≡ container_node container place (members_view extra.entries) }
{
    match container {
        Container::Items => Node::Array {
            items: place,
            extra,
        },
        Container::Values => Node::Map {
            values: place,
            extra,
        },
    }
}

/// A placeholder for a node until the types inside it are read.
pub fn placeholder(alloc: Global) -> Node {
    Node::Union {
        branches: Vec::new(alloc),
    }
}

/// Replaces the placeholder at the place by the node.
pub fn fill_placeholder(nodes: &mut Vec<Node>, place: u32, node: Node)
    requires { place < length nodes.old.items }
    ensures { nodes_view nodes.new.items
        ≡ slice_set (nodes_view nodes.old.items) place (node_view node) }
{
    nodes[place as usize] = node;
}

/// A field whose type is at `place`.
pub fn field_from(label: FieldAttributes, place: u32, extra: Members) -> Field
    ensures { field_view result ≡ field_at (field_attributes_view label) place (members_view extra.entries) }
{
    let FieldAttributes {
        name,
        aliases,
        order,
        value,
    } = label;
    Field {
        name,
        place,
        aliases,
        order,
        value,
        extra,
    }
}
