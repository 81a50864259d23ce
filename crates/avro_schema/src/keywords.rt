//! The keywords of declarations.

ghost use Rattle.std.specs.Prelude.{◌≡◌, Some, None};
ghost use Rattle.avro_schema.specs.Keywords.{kind_of, type_kind_of, order_of};

use avro_nodes::{Order, PrimitiveKind};

/// The meaning of the attribute `type` of an object (Avro 1.11 specification, Schema Declaration).
#[derive(Clone, Copy)]
pub enum TypeKind {
    /// a primitive type
    Primitive(PrimitiveKind),
    /// `array`
    Array,
    /// `map`
    Map,
    /// `fixed`
    Fixed,
    /// `enum`
    Enum,
    /// `record`
    Record,
    /// any other text: the name of a type that must be defined before
    Reference,
}

/// A type whose values contain values of one other type (Avro 1.11 specification, Arrays; Maps).
#[derive(Clone, Copy)]
pub enum Container {
    /// an array; its attribute `items` is the type of its items
    Items,
    /// a map; its attribute `values` is the type of its values
    Values,
}

/// The primitive type with this name.
#[tactic(auto, unfolding(crate::specs::Keywords::kind_of))]
pub fn kind_of(name: &str) -> Option<PrimitiveKind>
    ensures { result ≡ kind_of name.now }
{
    match name.len() {
        3 if name == "int" => Some(PrimitiveKind::Int),
        4 if name == "long" => Some(PrimitiveKind::Long),
        4 if name == "null" => Some(PrimitiveKind::Null),
        5 if name == "bytes" => Some(PrimitiveKind::Bytes),
        5 if name == "float" => Some(PrimitiveKind::Float),
        6 if name == "string" => Some(PrimitiveKind::Text),
        6 if name == "double" => Some(PrimitiveKind::Double),
        7 if name == "boolean" => Some(PrimitiveKind::Boolean),
        _ => None,
    }
}

/// The meaning of this name as the `type` of an object.
#[tactic(auto, unfolding(crate::specs::Keywords::type_kind_of))]
pub fn type_kind_of(name: &str) -> TypeKind
    ensures { result ≡ type_kind_of name.now }
{
    if let Some(kind) = kind_of(name) {
        return TypeKind::Primitive(kind);
    }
    if name == "record" {
        TypeKind::Record
    } else if name == "enum" {
        TypeKind::Enum
    } else if name == "array" {
        TypeKind::Array
    } else if name == "map" {
        TypeKind::Map
    } else if name == "fixed" {
        TypeKind::Fixed
    } else {
        TypeKind::Reference
    }
}

/// The sort order with this name.
#[tactic(auto, unfolding(crate::specs::Keywords::order_of))]
pub fn order_of(name: &str) -> Option<Order>
    ensures { result ≡ order_of name.now }
{
    if name == "ascending" {
        Some(Order::Ascending)
    } else if name == "descending" {
        Some(Order::Descending)
    } else if name == "ignore" {
        Some(Order::Ignore)
    } else {
        None
    }
}
