//! An Avro schema, and how it is read.

ghost use Rattle.std.specs.Prelude.{◌≡◌, ◌≢◌, ◌<◌, ◌≤◌, ◌↔◌, ℕ, List, Some, length, option_and_then, IsTrue, slice_get, string_bytes, IfOk, IfErr};
ghost use Rattle.avro_nodes.specs.Plain.{plain};
ghost use Rattle.avro_nodes.specs.Identity.{identity};
ghost use Rattle.avro_nodes.specs.Limits.{max_places};
ghost use Rattle.avro_nodes.specs.Nodes.{NodeView, nodes_view};
ghost use Rattle.avro_schema.specs.Index.{IsIndex};
ghost use Rattle.avro_schema.specs.Texts.{TextDenotes, IsSchema};
ghost use Rattle.avro_schema.specs.DenotedNodes.{denoted_nodes};
ghost use Rattle.avro_schema.specs.Inside.Borrowed.{value_data};
ghost use Rattle.avro_schema.specs.Inside.DeclaredNodes.{value_in, root_in, declared_nodes};
ghost use Rattle.avro_schema.specs.Inside.ReaderResults.{Gives};

use crate::borrowed::Json;
use crate::defaults::defaults_fit;
use crate::error::SchemaError;
use crate::index::Index;
use crate::indexing::index_of;
use crate::mentions::mentions_fit;
use crate::name_table::{NameTable, Namespace};
use crate::reading::type_at;
use crate::source::tree_at;
use crate::weight::names_fit;
use avro_nodes::{
    MAX_NESTING, MAX_PLACES, MAX_TEXT, Node, OutOfMemory, identity_of, respelling_of,
};
use json::{Reader, Scratch};
use std::alloc::Global;
use std::marker::Model;

/// The maximum nesting depth of the JSON text.
const MAX_DEPTH: usize = 127;

/// The budget of a text's tree. It is enough for all fields that fit into a schema's text: a field
/// costs 2, and takes at least 24 bytes unless its type adds a node. It is also enough for 2,184
/// objects, or for 4,369 strings in arrays.
const TREE_BUDGET: usize = MAX_TEXT / 12;

/// An Avro schema: the nodes that its text denotes. A node's place is its index; the root is at
/// place 0 (Avro 1.11 specification, Schema Declaration).
#[derive(Debug, Drop)]
pub struct Schema {
    nodes: Vec<Node>,
    text: String,
    index: Index,
}

impl Model for Schema {
    ghost use Rattle.std.specs.Prelude.{List, string_bytes};
    ghost use Rattle.avro_nodes.specs.declared.node.Node.{Node};
    ghost use Rattle.std.specs.Coded.{coded_list};
    ghost use Rattle.avro_nodes.specs.contracts.node.Node.{the_row};

    ghost Value = { List Node };

    ghost coded = { coded_list the_row.coded };

    ghost use Rattle.avro_nodes.specs.Nodes.{nodes_view};
    ghost use Rattle.avro_schema.specs.Index.{IsIndex};
    ghost use Rattle.avro_schema.specs.Texts.{SchemaInvariant};

    ghost view = { λ s. s.nodes.items };

    ghost invariant = { λ s. SchemaInvariant (nodes_view s.nodes.items) (string_bytes s.text)
        × IsIndex (nodes_view s.nodes.items) s.index };
}

/// The JSON value of a text whose numbers are rewritten.
fn value_of<'a>(
    alloc: Global,
    respelt: &'a str,
    scratch: &'a mut Scratch,
) -> Result<Json<'a>, SchemaError>
    ensures { (text : List ℕ) → plain text ≡ Some respelt.now
        → Gives value_data result (value_in text) }
{
    let mut reader = Reader::new(respelt, scratch)?;
    let value = tree_at(alloc, &mut reader, MAX_DEPTH, TREE_BUDGET)?;
    if reader.next().is_some() {
        return Err(SchemaError::NotJson);
    }
    Ok(value)
}

/// The nodes of a JSON value, before the checks of their defaults and their identity text.
fn nodes_of_value(alloc: Global, value: Json<'_>) -> Result<Vec<Node>, SchemaError>
    ensures { Gives (λ v. nodes_view v.items) result
        (option_and_then (λ p. Some p.nodes) (root_in (value_data value.entry))) }
{
    if !names_fit(&value) {
        return Err(SchemaError::TooLarge);
    }
    let mut nodes = Vec::new(alloc);
    let mut known = NameTable::none(alloc);
    let outside = Namespace {
        text: "",
        number: known.number(alloc, "")?,
    };
    type_at(alloc, value, &outside, MAX_NESTING, &mut nodes, &mut known)?;
    Ok(nodes)
}

/// The nodes of a text, before the checks of their defaults and their identity text.
#[tactic(auto, unfolding(crate::specs::Inside::DeclaredNodes::declared_nodes, crate::specs::Inside::DeclaredNodes::root_in))]
fn nodes_of(alloc: Global, text: &str) -> Result<Vec<Node>, SchemaError>
    ensures { Gives (λ v. nodes_view v.items) result (declared_nodes text.now) }
{
    if text.len() > MAX_TEXT {
        return Err(SchemaError::TooLarge);
    }
    let respelling = respelling_of(alloc, text)?;
    let Some(respelt) = respelling.text(text) else {
        return Err(SchemaError::BadNumber);
    };
    let mut scratch = Scratch::new(alloc);
    let value = value_of(alloc, respelt, &mut scratch)?;
    nodes_of_value(alloc, value)
}

impl Schema {
    /// Reads a schema text (Avro 1.11 specification, Schema Declaration). Succeeds only if the text
    /// denotes a schema, and returns this schema.
    ///
    /// # Errors
    ///
    /// `OutOfMemory` if allocation fails. Every other error implies that the text denotes no
    /// schema. No contract says which reason (see `SchemaError`) a text gets.
    pub fn read(alloc: Global, text: &str) -> Result<Schema, SchemaError>
        ensures ok { IfOk result (λ s. TextDenotes text.now (nodes_view s)) }
        // a text denotes at most one schema
        ensures unique { IfOk result (λ s. (nodes : List NodeView) → TextDenotes text.now nodes
            → nodes ≡ nodes_view s) }
        ensures err { IfErr result (λ e. e ≢ SchemaError.OutOfMemory
            → (nodes : List NodeView) → ¬ TextDenotes text.now nodes) }
    {
        let nodes = nodes_of(alloc, text)?;
        if !mentions_fit(&nodes) {
            return Err(SchemaError::TooLarge);
        }
        if !defaults_fit(alloc, &nodes)? {
            return Err(SchemaError::BadDefault);
        }
        let text = identity_of(alloc, &nodes)?;
        if text.len() > MAX_TEXT {
            return Err(SchemaError::TooLarge);
        }
        let index = index_of(alloc, &nodes)?;
        Ok(Schema { nodes, text, index })
    }

    /// The identity text: the schema as compact JSON with its members in byte order. It denotes
    /// this schema and no other, so `Schema::read` returns the same schema for it.
    ///
    /// # Errors
    ///
    /// `OutOfMemory` if allocation of the copy fails.
    pub fn text(&self, alloc: Global) -> Result<String, OutOfMemory>
        ensures text { IfOk result (λ s. string_bytes s ≡ identity (nodes_view self.now)) }
        ensures denotes { IfOk result (λ s. TextDenotes (string_bytes s) (nodes_view self.now)) }
        ensures unique { IfOk result (λ s. (nodes : List NodeView)
            → TextDenotes (string_bytes s) nodes → nodes ≡ nodes_view self.now) }
    {
        Ok(String::from_str(alloc, self.text.as_str())?)
    }

    /// Whether the schemas are equal. This is so exactly if their identity texts are equal.
    pub fn is_same(&self, other: &Schema) -> bool
        ensures schemas { IsTrue result ↔ (nodes_view self.now ≡ nodes_view other.now) }
        ensures texts { IsTrue result ↔ (identity (nodes_view self.now)
            ≡ identity (nodes_view other.now)) }
    {
        self.text == other.text
    }

    /// The number of nodes, at most `MAX_PLACES`. For every `Schema`, some text denotes its nodes.
    pub fn places(&self) -> u32
        ensures places { result ≡ length self.now }
        ensures few { result ≤ max_places }
        ensures schema { IsSchema (nodes_view self.now) }
    {
        self.nodes.len() as u32
    }

    /// The node at a place.
    pub fn node(&self, place: u32) -> &Node
        requires { place < length self.now }
        ensures { slice_get self.now place ≡ Some result.now }
    {
        &self.nodes[place as usize]
    }

    /// The index: the names of the schema in byte order, and the ranks of each node's names.
    pub fn index(&self) -> &Index
        ensures { IsIndex (nodes_view self.now) result.now }
    {
        &self.index
    }
}

/// A law: the identity text of a schema denotes the schema. It is true of any nodes that some text
/// denotes, even if no `Schema` was read.
pub fn identity_denotes()
    ensures { (nodes : List NodeView) → IsSchema nodes → TextDenotes (identity nodes) nodes }
{}

/// A law: `denoted_nodes` computes the nodes that a text denotes.
pub fn denoting_is_decided()
    ensures { (text : List ℕ) (nodes : List NodeView)
        → (denoted_nodes text ≡ Some nodes) ↔ TextDenotes text nodes }
{}
