//! Builds the index of a list of nodes: collects their names, sorts them, and then finds the rank
//! of each.

ghost use Rattle.std.specs.Prelude.{◌≡◌, ◌++◌, All, Contains, IfOk, OnOk, map};
ghost use Rattle.avro_nodes.specs.Nodes.{field_view, named_view, node_view, nodes_view, texts_view};
ghost use Rattle.avro_schema.specs.Index.{AreFieldsRanked, AreIndexNames, AreRanked, IsFieldRanked, IsIndex, IsDefinitionRanked, IsRanked};
ghost use Rattle.avro_schema.specs.Inside.NodeTexts.{borrowed, named_texts, field_texts, fields_texts, node_texts, nodes_texts};

use crate::index::{FieldRanks, Index, NamedRanks, Ranks};
use crate::ranking::{owned, rank_of, ranks_of, sorted_ranks_of, sorted_unique};
use avro_nodes::{Field, Named, Node, last_part};
use std::alloc::{AllocError, Global};
use std::slice::Iter;

/// The maximum number of names, so that a rank fits in 32 bits. No schema reaches it, since each
/// name takes at least one byte of the text.
const MAX_NAMES: usize = 4294967295;

fn push_texts<'a>(list: &mut Vec<&'a str>, texts: &'a [String]) -> Result<(), AllocError>
    ensures { OnOk result (borrowed list.new.items
        ≡ borrowed list.old.items ++ texts_view texts.now) }
{
    for text in texts {
        list.push(text.as_str())?;
    }
    Ok(())
}

fn push_named<'a>(list: &mut Vec<&'a str>, named: &'a Named) -> Result<(), AllocError>
    ensures { OnOk result (borrowed list.new.items
        ≡ borrowed list.old.items ++ named_texts (named_view named.now)) }
{
    let full = named.name.as_str();
    list.push(last_part(full))?;
    list.push(full)?;
    push_texts(list, &named.aliases)?;
    Ok(())
}

fn push_field<'a>(list: &mut Vec<&'a str>, field: &'a Field) -> Result<(), AllocError>
    ensures { OnOk result (borrowed list.new.items
        ≡ borrowed list.old.items ++ field_texts (field_view field.now)) }
{
    list.push(field.name.as_str())?;
    push_texts(list, &field.aliases)?;
    Ok(())
}

fn push_fields<'a>(list: &mut Vec<&'a str>, fields: &'a [Field]) -> Result<(), AllocError>
    ensures { OnOk result (borrowed list.new.items
        ≡ borrowed list.old.items ++ fields_texts (map field_view fields.now)) }
{
    for field in fields {
        push_field(list, field)?;
    }
    Ok(())
}

fn push_node<'a>(list: &mut Vec<&'a str>, node: &'a Node) -> Result<(), AllocError>
    ensures { OnOk result (borrowed list.new.items
        ≡ borrowed list.old.items ++ node_texts (node_view node.now)) }
{
    match node {
        Node::Enum { named, symbols, .. } => {
            push_named(list, named)?;
            push_texts(list, symbols)?;
        }
        Node::Fixed { named, .. } => {
            push_named(list, named)?;
        }
        Node::Rec { named, fields, .. } => {
            push_named(list, named)?;
            push_fields(list, fields)?;
        }
        Node::Primitive { .. } | Node::Array { .. } | Node::Map { .. } | Node::Union { .. } => {}
    }
    Ok(())
}

/// The names in the nodes, in order of occurrence.
fn texts_of(alloc: Global, nodes: &[Node]) -> Result<Vec<&str>, AllocError>
    ensures { IfOk result (λ v. borrowed v.items ≡ nodes_texts (nodes_view nodes.now)) }
{
    let mut list = Vec::with_capacity(alloc, nodes.len())?;
    for node in nodes {
        push_node(&mut list, node)?;
    }
    Ok(list)
}

fn named_ranks(
    alloc: Global,
    names: &[&str],
    hints: &mut Iter<'_, u32>,
    named: &Named,
) -> Result<NamedRanks, AllocError>
    requires names { AreIndexNames (borrowed names.now) }
    requires known { All (Contains (borrowed names.now)) (named_texts (named_view named.now)) }
    ensures { IfOk result (IsDefinitionRanked (borrowed names.now) (named_view named.now)) }
{
    let name = named.name.as_str();
    let last = rank_of(names, hints, last_part(name));
    let full = rank_of(names, hints, name);
    let aliases = sorted_ranks_of(alloc, names, hints, &named.aliases)?;
    Ok(NamedRanks {
        last,
        full,
        aliases,
    })
}

fn field_ranks(
    alloc: Global,
    names: &[&str],
    hints: &mut Iter<'_, u32>,
    field: &Field,
) -> Result<FieldRanks, AllocError>
    requires names { AreIndexNames (borrowed names.now) }
    requires known { All (Contains (borrowed names.now)) (field_texts (field_view field.now)) }
    ensures { IfOk result (IsFieldRanked (borrowed names.now) (field_view field.now)) }
{
    let name = rank_of(names, hints, field.name.as_str());
    let aliases = ranks_of(alloc, names, hints, &field.aliases)?;
    Ok(FieldRanks { name, aliases })
}

fn fields_ranks(
    alloc: Global,
    names: &[&str],
    hints: &mut Iter<'_, u32>,
    fields: &[Field],
) -> Result<Vec<FieldRanks>, AllocError>
    requires names { AreIndexNames (borrowed names.now) }
    requires known { All (Contains (borrowed names.now)) (fields_texts (map field_view fields.now)) }
    ensures { IfOk result (λ v. AreFieldsRanked (borrowed names.now) (map field_view fields.now) v.items) }
{
    let mut ranks = Vec::with_capacity(alloc, fields.len())?;
    for field in fields {
        ranks.push(field_ranks(alloc, names, hints, field)?)?;
    }
    Ok(ranks)
}

fn node_ranks(
    alloc: Global,
    names: &[&str],
    hints: &mut Iter<'_, u32>,
    node: &Node,
) -> Result<Ranks, AllocError>
    requires names { AreIndexNames (borrowed names.now) }
    requires known { All (Contains (borrowed names.now)) (node_texts (node_view node.now)) }
    ensures { IfOk result (IsRanked (borrowed names.now) (node_view node.now)) }
{
    match node {
        Node::Enum { named, symbols, .. } => {
            let named = named_ranks(alloc, names, hints, named)?;
            let symbols = sorted_ranks_of(alloc, names, hints, symbols)?;
            Ok(Ranks::Enum { named, symbols })
        }
        Node::Fixed { named, .. } => {
            let named = named_ranks(alloc, names, hints, named)?;
            Ok(Ranks::Fixed { named })
        }
        Node::Rec { named, fields, .. } => {
            let named = named_ranks(alloc, names, hints, named)?;
            let fields = fields_ranks(alloc, names, hints, fields)?;
            Ok(Ranks::Rec { named, fields })
        }
        Node::Primitive { .. } | Node::Array { .. } | Node::Map { .. } | Node::Union { .. } => {
            Ok(Ranks::Unnamed)
        }
    }
}

/// The ranks of each node's names.
fn nodes_ranks(
    alloc: Global,
    names: &[&str],
    hints: &mut Iter<'_, u32>,
    nodes: &[Node],
) -> Result<Vec<Ranks>, AllocError>
    requires names { AreIndexNames (borrowed names.now) }
    requires known { All (Contains (borrowed names.now)) (nodes_texts (nodes_view nodes.now)) }
    ensures { IfOk result (λ v. AreRanked (borrowed names.now) (nodes_view nodes.now) v.items) }
{
    let mut ranks = Vec::with_capacity(alloc, nodes.len())?;
    for node in nodes {
        ranks.push(node_ranks(alloc, names, hints, node)?)?;
    }
    Ok(ranks)
}

/// Builds the index of these nodes.
///
/// # Errors
///
/// `AllocError` if an allocation fails, or if there are more than `MAX_NAMES` names. No schema has
/// that many.
pub fn index_of(alloc: Global, nodes: &[Node]) -> Result<Index, AllocError>
    ensures { IfOk result (IsIndex (nodes_view nodes.now)) }
{
    let texts = texts_of(alloc, nodes)?;
    let (sorted, hints) = sorted_unique(alloc, texts)?;
    if sorted.len() > MAX_NAMES {
        return Err(AllocError);
    }
    let ranks = nodes_ranks(alloc, &sorted, &mut hints.iter(), nodes)?;
    drop(hints);
    let names = owned(alloc, &sorted)?;
    Ok(Index { names, ranks })
}
