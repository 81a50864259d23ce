//! Whether the defaults of a node's fields fit.

ghost use Rattle.std.specs.Prelude.{◌≡◌, map};
ghost use Rattle.avro_nodes.specs.Nodes.{field_view, node_view, nodes_view};
ghost use Rattle.avro_schema.specs.Inside.Fitting.{field_defaults_fit, node_default_fits};
ghost use Rattle.avro_schema.specs.Inside.FieldTables.{AreFieldTables};

use crate::defaults::fits;
use crate::tables::FieldTable;
use avro_nodes::{Field, MAX_NESTING, Node};

/// Whether the default of each field fits the field's type.
fn field_defaults_fit(fields: &[Field], nodes: &[Node], tables: &[Option<FieldTable>]) -> bool
    requires tables { AreFieldTables (nodes_view nodes.now) tables.now }
    ensures { result ≡ field_defaults_fit (nodes_view nodes.now) (map field_view fields.now) }
{
    for field in fields {
        if let Some(value) = &field.value
            && !fits(value, field.place, nodes, tables, MAX_NESTING + 1)
        {
            return false;
        }
    }
    true
}

/// Whether every default in a record fits its field. Other types have no fields.
pub fn node_default_fits(node: &Node, nodes: &[Node], tables: &[Option<FieldTable>]) -> bool
    requires tables { AreFieldTables (nodes_view nodes.now) tables.now }
    ensures { result ≡ node_default_fits (nodes_view nodes.now) (node_view node.now) }
{
    match node {
        Node::Rec { fields, .. } => field_defaults_fit(fields, nodes, tables),
        Node::Primitive { .. }
        | Node::Array { .. }
        | Node::Map { .. }
        | Node::Union { .. }
        | Node::Enum { .. }
        | Node::Fixed { .. } => true,
    }
}
