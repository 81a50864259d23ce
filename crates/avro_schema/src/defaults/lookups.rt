//! The type that a default must fit, and the field table of a record.

ghost use Rattle.std.specs.Prelude.{◌≡◌, option_map, Some, IfSome, slice_get};
ghost use Rattle.avro_nodes.specs.Nodes.{node_view, nodes_view};
ghost use Rattle.avro_schema.specs.Inside.Fitting.{default_type};
ghost use Rattle.avro_schema.specs.Inside.FieldTables.{IsFieldTableOf, AreFieldTables};

use crate::tables::FieldTable;
use avro_nodes::Node;

/// The type that a default must fit, with its place: for a union its first branch, else the type at
/// `place`.
pub fn default_type(nodes: &[Node], place: u32) -> Option<(u32, &Node)>
    ensures node { option_map (λ p. node_view p.1.now) result
        ≡ default_type (nodes_view nodes.now) (slice_get (nodes_view nodes.now) place) }
    ensures place { IfSome result (λ p. slice_get (nodes_view nodes.now) p.0 ≡ Some (node_view p.1.now)) }
{
    match nodes.get(place as usize) {
        Some(Node::Union { branches }) => {
            let first = *branches.first()?;
            Some((first, nodes.get(first as usize)?))
        }
        Some(node) => Some((place, node)),
        None => None,
    }
}

/// The field table of the node at the place, or `None`.
#[tactic(auto, unfolding(crate::specs::Inside::FieldTables::AreFieldTables))]
pub fn table_at<'a, 'b>(
    tables: &'a [Option<FieldTable<'b>>],
    place: u32,
    nodes: &[Node],
    node: &Node,
) -> Option<&'a FieldTable<'b>>
    requires tables { AreFieldTables (nodes_view nodes.now) tables.now }
    requires node { slice_get (nodes_view nodes.now) place ≡ Some (node_view node.now) }
    ensures { IfSome result (λ t. IsFieldTableOf t.now (node_view node.now)) }
{
    match tables.get(place as usize) {
        Some(Some(table)) => Some(table),
        Some(None) => None,
        None => None,
    }
}
