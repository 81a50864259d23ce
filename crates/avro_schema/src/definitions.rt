//! The parts of a declaration other than the types inside it: names, symbols, sizes and other
//! attributes.

ghost use Rattle.std.specs.Prelude.{◌≡◌, length, Some, None, IfOk, OnOk, option_map, string_bytes, codes, ◌∷◌, []};
ghost use Rattle.std.specs.Str.{bytes_eq};
ghost use Rattle.std.specs.List.{list_any};
ghost use Rattle.serde_json.specs.Find.{get_member};
ghost use Rattle.serde_json.specs.View.{view, members_view};
ghost use Rattle.avro_nodes.specs.Nodes.{texts_view, named_view, nodes_view};
ghost use Rattle.avro_schema.specs.Attributes.{without_all, fallback_in};
ghost use Rattle.avro_schema.specs.Inside.Borrowed.{members_data};
ghost use Rattle.avro_schema.specs.Inside.Declarations.{name_keys, if_new, new_name, named_in, symbols_in, enum_at, fixed_at, bounded};
ghost use Rattle.avro_schema.specs.Inside.ValueReaders.{next_place};
ghost use Rattle.avro_schema.specs.Inside.ReaderResults.{Gives, ReadsPart};
ghost use Rattle.avro_schema.specs.Inside.NameTables.{known_in, KeepsNumbers};

use crate::attribute_map::{Attributes, owned_map, take, take_default};
use crate::attributes::{names_if_any, names_in, size_of, take_items, take_text, take_text_if_any};
use crate::distinct::are_names_distinct;
use crate::error::SchemaError;
use crate::keywords::kind_of;
use crate::name_table::NameTable;
use crate::names::full_name;
use crate::nesting::members_within;
use crate::owning::text_of;
use avro_nodes::{MAX_NESTING, MAX_PLACES, Members, Named, Node, last_part, namespace_of};
use serde_json::Value;
use std::alloc::Global;

/// The place of the next node.
///
/// # Errors
///
/// `TooLarge` if the schema has the maximum number of nodes.
#[tactic(auto, unfolding(crate::specs::Inside::ValueReaders::next_place))]
pub fn next_place(nodes: &Vec<Node>) -> Result<u32, SchemaError>
    ensures room { Gives (λ p. p) result (next_place (length nodes.now.items)) }
    ensures place { IfOk result (λ p. p ≡ length nodes.now.items) }
{
    if nodes.len() < MAX_PLACES {
        Ok(nodes.len() as u32)
    } else {
        Err(SchemaError::TooLarge)
    }
}

/// The remaining attributes as a map.
///
/// # Errors
///
/// `TooLarge` if one of them nests too deep, and `OutOfMemory` if allocation fails.
#[tactic(auto, unfolding(crate::specs::Inside::Declarations::bounded))]
pub fn other_attributes(alloc: Global, attributes: Attributes<'_>) -> Result<Members, SchemaError>
    ensures { Gives (λ m. members_view m.entries) result
        (bounded (members_data attributes.entry)) }
{
    let extra = owned_map(alloc, attributes)?;
    if members_within(&extra, MAX_NESTING) {
        Ok(extra)
    } else {
        Err(SchemaError::TooLarge)
    }
}

/// Returns the full name if it may be defined.
///
/// # Errors
///
/// `Redefined` if it is defined already. `BadName` if its last part is the name of a primitive
/// type.
fn if_free(full: String, known: &NameTable) -> Result<String, SchemaError>
    ensures { Gives string_bytes result (if_new (known_in known.now) (string_bytes full)) }
{
    if known.place_of(full.as_str()).is_some() {
        return Err(SchemaError::Redefined);
    }
    if kind_of(last_part(full.as_str())).is_some() {
        return Err(SchemaError::BadName);
    }
    Ok(full)
}

/// The full name of a new definition, from its attributes `name` and `namespace`, which are
/// removed.
#[tactic(auto, unfolding(crate::specs::Inside::Declarations::new_name))]
fn new_name(
    alloc: Global,
    attributes: &mut Attributes<'_>,
    space: &str,
    known: &NameTable,
) -> Result<String, SchemaError>
    ensures name { Gives string_bytes result
        (new_name space.now (members_data attributes.old) (known_in known.now)) }
    ensures rest { OnOk result (members_data attributes.new
        ≡ without_all (codes "name" ∷ codes "namespace" ∷ []) (members_data attributes.old)) }
{
    let name = take_text(alloc, attributes, "name")?;
    let namespace = take_text_if_any(alloc, attributes, "namespace")?;
    let Some(full) = full_name(alloc, name.as_str(), namespace.as_deref(), space)? else {
        return Err(SchemaError::BadName);
    };
    if_free(full, known)
}

/// The names of a new definition, from its attributes `name`, `namespace` and `aliases`, which are
/// removed.
///
/// # Errors
///
/// `BadShape` if the name is missing or an attribute has the wrong JSON type. `BadName` if a name
/// is malformed or belongs to a primitive type. `Redefined` if the full name is defined already.
/// `OutOfMemory` if allocation fails. After an error, some of the attributes may be gone.
#[tactic(auto, unfolding(crate::specs::Inside::Declarations::named_in))]
pub fn named_of(
    alloc: Global,
    attributes: &mut Attributes<'_>,
    space: &str,
    known: &NameTable,
) -> Result<Named, SchemaError>
    ensures named { Gives named_view result
        (named_in space.now (members_data attributes.old) (known_in known.now)) }
    ensures rest { OnOk result (members_data attributes.new
        ≡ without_all name_keys (members_data attributes.old)) }
{
    let name = new_name(alloc, attributes, space, known)?;
    let listed = take(attributes, "aliases");
    let aliases = names_if_any(alloc, listed, Some(namespace_of(name.as_str())))?;
    Ok(Named { name, aliases })
}

/// The symbols of an enum, which must be distinct simple names. The attribute is removed.
#[tactic(auto, unfolding(crate::specs::Inside::Declarations::symbols_in))]
fn symbols_of(alloc: Global, attributes: &mut Attributes<'_>) -> Result<Vec<String>, SchemaError>
    ensures symbols { Gives (λ v. texts_view v.items) result
        (symbols_in (members_data attributes.old)) }
    ensures rest { members_data attributes.new
        ≡ without_all (codes "symbols" ∷ []) (members_data attributes.old) }
{
    let items = take_items(attributes, "symbols")?;
    let symbols = names_in(alloc, items, None)?;
    if are_names_distinct(alloc, &symbols)? {
        Ok(symbols)
    } else {
        Err(SchemaError::Redefined)
    }
}

fn has_symbol(symbols: &[String], name: &str) -> bool
    ensures { result ≡ list_any (λ t. bytes_eq (string_bytes t) name.now) symbols.now }
{
    symbols.iter().any(|symbol| symbol.as_str() == name)
}

/// The default of an enum, or `None` if it is missing. It must be one of the symbols.
fn fallback_of(attribute: Option<Value>, symbols: &[String]) -> Result<Option<String>, SchemaError>
    ensures { Gives (option_map string_bytes) result
        (fallback_in (texts_view symbols.now) (option_map view attribute)) }
{
    let Some(value) = attribute else {
        return Ok(None);
    };
    let Some(name) = text_of(value) else {
        return Err(SchemaError::BadShape);
    };
    if has_symbol(symbols, name.as_str()) {
        Ok(Some(name))
    } else {
        Err(SchemaError::BadShape)
    }
}

/// Reads an enum from the attributes without `type`, and returns its place.
///
/// # Errors
///
/// `TooLarge` if there is no room for a node or an attribute nests too deep. `BadShape` if the
/// symbols are missing or aren't an array of strings, or if the default isn't one of them.
/// `BadName` if a symbol is malformed, and `Redefined` if it occurs twice. `OutOfMemory` if
/// allocation fails. Also the errors of `named_of`. After an error, the name may be defined.
#[tactic(auto, unfolding(crate::specs::Inside::Declarations::enum_at))]
pub fn enum_at(
    alloc: Global,
    attributes: Attributes<'_>,
    space: &str,
    nodes: &mut Vec<Node>,
    known: &mut NameTable,
) -> Result<u32, SchemaError>
    ensures read { ReadsPart (λ p. p) result
        (enum_at space.now (members_data attributes.entry) (known_in known.old) (length nodes.old.items))
        (nodes_view nodes.old.items) (nodes_view nodes.new.items) (known_in known.new) }
    ensures kept { OnOk result (KeepsNumbers known.old known.new) }
{
    let mut rest = attributes;
    let place = next_place(nodes)?;
    let named = named_of(alloc, &mut rest, space, known)?;
    let symbols = symbols_of(alloc, &mut rest)?;
    let fallback = fallback_of(take_default(&mut rest), &symbols)?;
    let extra = other_attributes(alloc, rest)?;
    known.define(alloc, named.name.as_str(), place)?;
    nodes.push(Node::Enum {
        named,
        symbols,
        fallback,
        extra,
    })?;
    Ok(place)
}

/// Reads a `fixed` type from the attributes without `type`, and returns its place.
///
/// # Errors
///
/// `TooLarge` if there is no room for a node or an attribute nests too deep. `BadShape` if the size
/// is missing or isn't an integer from 0 to 2^31 - 1. `OutOfMemory` if allocation fails. Also the
/// errors of `named_of`. After an error, the name may be defined.
#[tactic(auto, unfolding(crate::specs::Inside::Declarations::fixed_at))]
pub fn fixed_at(
    alloc: Global,
    attributes: Attributes<'_>,
    space: &str,
    nodes: &mut Vec<Node>,
    known: &mut NameTable,
) -> Result<u32, SchemaError>
    ensures read { ReadsPart (λ p. p) result
        (fixed_at space.now (members_data attributes.entry) (known_in known.old) (length nodes.old.items))
        (nodes_view nodes.old.items) (nodes_view nodes.new.items) (known_in known.new) }
    ensures kept { OnOk result (KeepsNumbers known.old known.new) }
{
    let mut rest = attributes;
    let place = next_place(nodes)?;
    let named = named_of(alloc, &mut rest, space, known)?;
    let Some(size) = size_of(take(&mut rest, "size")) else {
        return Err(SchemaError::BadShape);
    };
    let extra = other_attributes(alloc, rest)?;
    known.define(alloc, named.name.as_str(), place)?;
    nodes.push(Node::Fixed { named, size, extra })?;
    Ok(place)
}
