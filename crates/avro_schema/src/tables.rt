//! The fields of a record by name. A default value of a large record needs a check only of its own
//! members and of the required fields.

ghost use Rattle.std.specs.Prelude.{◌≡◌, IfOk, IfSome, map};
ghost use Rattle.avro_nodes.specs.Nodes.{field_view, node_view, nodes_view};
ghost use Rattle.avro_schema.specs.Inside.FieldTables.{index_by_name, IsFieldTable, IsFieldTableOf, AreFieldTables};

use avro_nodes::{Field, Node};
use serde_json::Value;
use std::alloc::{AllocError, Global};
use std::collections::BTreeMap;

/// The maximum number of fields of a record that gets no table.
const FEW_FIELDS: usize = 16;

/// The indices of a record's fields.
#[derive(Drop)]
pub struct FieldTable<'a> {
    /// fields to check for every default value: those without a default of their own, and those
    /// with the name of an earlier field in `by_name`
    pub required: Vec<usize>,
    /// fields with a default, which a default value may omit
    pub by_name: BTreeMap<&'a str, usize>,
}

impl<'a> FieldTable<'a> {
    /// The index that the table has for a name.
    pub fn field_index(&self, name: &str) -> Option<usize>
        ensures { result ≡ index_by_name self.now name.now }
    {
        self.by_name.get(name).copied()
    }
}

/// The table of these fields. If two fields with defaults have the same name, `required` has the
/// later field.
fn table_of(alloc: Global, fields: &[Field]) -> Result<FieldTable, AllocError>
    ensures { IfOk result (λ t. IsFieldTable t (map field_view fields.now)) }
{
    let mut required = Vec::new(alloc);
    let mut by_name = BTreeMap::new(alloc);
    for (index, field) in fields.iter().enumerate() {
        let name = field.name.as_str();
        if field.value.is_none() || by_name.contains_key(name) {
            required.push(index)?;
        } else {
            by_name.insert(name, index)?;
        }
    }
    Ok(FieldTable { required, by_name })
}

/// The table of a record with more than `FEW_FIELDS` fields.
fn table_if_any(alloc: Global, node: &Node) -> Result<Option<FieldTable>, AllocError>
    ensures { IfOk result (λ o. IfSome o (λ t. IsFieldTableOf t (node_view node.now))) }
{
    match node {
        Node::Rec { fields, .. } if fields.len() > FEW_FIELDS => Ok(Some(table_of(alloc, fields)?)),
        _ => Ok(None),
    }
}

/// Whether the value is a nonempty array or object.
fn is_nested(value: &Value) -> bool {
    match value {
        Value::Array(items) => !items.is_empty(),
        Value::Object(members) => !members.is_empty(),
        Value::Null | Value::Bool(_) | Value::Number(_) | Value::String(_) => false,
    }
}

/// Whether a field of the node has a nonempty array or object as its default.
fn has_nested_default(node: &Node) -> bool {
    match node {
        Node::Rec { fields, .. } => fields.iter().any(|field| match &field.value {
            Some(value) => is_nested(value),
            None => false,
        }),
        _ => false,
    }
}

/// The field tables of the records with more than `FEW_FIELDS` fields, by place. The list is empty
/// if no default is a nonempty array or object.
///
/// # Errors
///
/// `AllocError` if allocation fails.
pub fn tables_of(alloc: Global, nodes: &[Node]) -> Result<Vec<Option<FieldTable>>, AllocError>
    ensures { IfOk result (λ v. AreFieldTables (nodes_view nodes.now) v.items) }
{
    if !nodes.iter().any(|node| has_nested_default(node)) {
        return Ok(Vec::new(alloc));
    }
    let mut tables = Vec::with_capacity(alloc, nodes.len())?;
    for node in nodes {
        tables.push(table_if_any(alloc, node)?)?;
    }
    Ok(tables)
}
