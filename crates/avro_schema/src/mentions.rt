//! The bytes that the names of types inside other types take in the identity text. Each reference
//! is a place in a node and a full name in the text, so the text may be far larger than the nodes.

ghost use Rattle.std.specs.Prelude.{◌≡◌, ◌-◌, length, map, nat_le};
ghost use Rattle.avro_nodes.specs.Nodes.{field_view, node_view, nodes_view};
ghost use Rattle.avro_nodes.specs.Limits.{max_text};
ghost use Rattle.avro_schema.specs.Inside.Mentions.{mention, places_mentions, fields_mentions, node_mentions, mentions};

use avro_nodes::{Field, MAX_TEXT, Node};

/// The length in bytes of the full name of the type at the place, 0 if it has no name.
#[tactic(auto, unfolding(crate::specs::Inside::Mentions::mention))]
fn name_length(nodes: &[Node], place: u32) -> usize
    ensures { result ≡ mention (nodes_view nodes.now) place }
{
    match nodes.get(place as usize) {
        Some(Node::Enum { named, .. }) => named.name.len(),
        Some(Node::Fixed { named, .. }) => named.name.len(),
        Some(Node::Rec { named, .. }) => named.name.len(),
        Some(Node::Primitive { .. } | Node::Array { .. } | Node::Map { .. } | Node::Union { .. })
        | None => 0,
    }
}

/// What remains of a budget of bytes after the name of the type at the place. If the budget doesn't
/// suffice, 0 remains.
fn after_place(budget: usize, place: u32, nodes: &[Node]) -> usize
    ensures { result ≡ budget - mention (nodes_view nodes.now) place }
{
    budget.saturating_sub(name_length(nodes, place))
}

/// What remains of the budget after the full names of the types at these places.
fn after_places(budget: usize, places: &Vec<u32>, nodes: &[Node]) -> usize
    ensures { result ≡ budget - places_mentions (nodes_view nodes.now) places.now.items }
{
    let mut rest = budget;
    for place in places {
        rest = after_place(rest, *place, nodes);
    }
    rest
}

/// What remains of the budget after the full names of the types of fields.
fn after_fields(budget: usize, fields: &Vec<Field>, nodes: &[Node]) -> usize
    ensures { result ≡ budget - fields_mentions (nodes_view nodes.now) (map field_view fields.now.items) }
{
    let mut rest = budget;
    for field in fields {
        rest = after_place(rest, field.place, nodes);
    }
    rest
}

/// What remains after the names of the types inside a node.
fn after_node(budget: usize, node: &Node, nodes: &[Node]) -> usize
    ensures { result ≡ budget - node_mentions (nodes_view nodes.now) (node_view node.now) }
{
    match node {
        Node::Array { items, .. } => after_place(budget, *items, nodes),
        Node::Map { values, .. } => after_place(budget, *values, nodes),
        Node::Union { branches } => after_places(budget, branches, nodes),
        Node::Rec { fields, .. } => after_fields(budget, fields, nodes),
        Node::Primitive { .. } | Node::Enum { .. } | Node::Fixed { .. } => budget,
    }
}

fn after_nodes(budget: usize, nodes: &[Node]) -> usize
    ensures { result ≡ budget - mentions (nodes_view nodes.now) (nodes_view nodes.now) }
{
    let mut rest = budget;
    for node in nodes {
        rest = after_node(rest, node, nodes);
    }
    rest
}

/// Whether the names of all types inside other types, counted at each use, together fit in the
/// maximum length of a text.
pub fn mentions_fit(nodes: &[Node]) -> bool
    ensures { result ≡ nat_le (mentions (nodes_view nodes.now) (nodes_view nodes.now)) max_text }
{
    after_nodes(MAX_TEXT + 1, nodes) > 0
}
