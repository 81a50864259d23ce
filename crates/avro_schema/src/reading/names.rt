//! Types that are given by a name: primitive types and references.

ghost use Rattle.std.specs.Prelude.{length};
ghost use Rattle.avro_nodes.specs.Nodes.{nodes_view};
ghost use Rattle.avro_schema.specs.Inside.Borrowed.{members_data};
ghost use Rattle.avro_schema.specs.Inside.Types.{reference_to, primitive_at, name_at};
ghost use Rattle.avro_schema.specs.Inside.ReaderResults.{ReadsPart};
ghost use Rattle.avro_schema.specs.Inside.NameTables.{known_in, HasNumber};

use crate::attribute_map::Attributes;
use crate::definitions::{next_place, other_attributes};
use crate::error::SchemaError;
use crate::keywords::kind_of;
use crate::name_table::{NameTable, Namespace};
use avro_nodes::{Members, Node, PrimitiveKind};
use std::alloc::Global;

/// Reads a primitive type from the attributes without `type`, and returns its place.
///
/// # Errors
///
/// `TooLarge` if there is no room for a node or an attribute nests too deep, and `OutOfMemory` if
/// allocation fails.
#[tactic(auto, unfolding(crate::specs::Inside::Types::primitive_at))]
pub fn primitive_at(
    alloc: Global,
    kind: PrimitiveKind,
    attributes: Attributes<'_>,
    nodes: &mut Vec<Node>,
    known: &NameTable,
) -> Result<u32, SchemaError>
    ensures { ReadsPart (λ p. p) result
        (primitive_at kind (members_data attributes.entry) (known_in known.now) (length nodes.old.items))
        (nodes_view nodes.old.items) (nodes_view nodes.new.items) (known_in known.now) }
{
    let place = next_place(nodes)?;
    let extra = other_attributes(alloc, attributes)?;
    nodes.push(Node::Primitive { kind, extra })?;
    Ok(place)
}

/// The place of the type that a reference names.
///
/// # Errors
///
/// `Undefined` if no definition so far has this name.
#[tactic(auto, unfolding(crate::specs::Inside::Types::reference_to))]
pub fn reference_to(
    name: &str,
    space: &Namespace,
    nodes: &Vec<Node>,
    known: &NameTable,
) -> Result<u32, SchemaError>
    requires { HasNumber known.now space.now }
    ensures { ReadsPart (λ p. p) result (reference_to space.now.text.now name.now (known_in known.now))
        (nodes_view nodes.now.items) (nodes_view nodes.now.items) (known_in known.now) }
{
    match known.resolve(space, name) {
        Some(place) => Ok(place),
        None => Err(SchemaError::Undefined),
    }
}

/// Reads a string: the name of a primitive type, else a reference. Returns the place of the type.
///
/// # Errors
///
/// The errors of `primitive_at` and of `reference_to`.
#[tactic(auto, unfolding(crate::specs::Inside::Types::name_at, crate::specs::Inside::Types::primitive_at, crate::specs::Inside::Declarations::bounded))]
pub fn name_at(
    alloc: Global,
    name: &str,
    space: &Namespace,
    nodes: &mut Vec<Node>,
    known: &NameTable,
) -> Result<u32, SchemaError>
    requires { HasNumber known.now space.now }
    ensures { ReadsPart (λ p. p) result
        (name_at space.now.text.now name.now (known_in known.now) (length nodes.old.items))
        (nodes_view nodes.old.items) (nodes_view nodes.new.items) (known_in known.now) }
{
    match kind_of(name) {
        Some(kind) => {
            let place = next_place(nodes)?;
            let extra = Members::new(alloc);
            nodes.push(Node::Primitive { kind, extra })?;
            Ok(place)
        }
        None => reference_to(name, space, nodes, known),
    }
}
