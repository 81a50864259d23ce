//! The nodes of a schema, as its declaration defines them (Avro 1.11 specification, Schema
//! Declaration). A schema is a list of nodes, numbered depth first and from left to right. A place
//! is an index into that list; the root has place 0. A reference to a named type adds no node: it
//! is the place of the type's definition.

use serde_json::{Map, Value};

/// The members of a JSON object. Those of a type or a field that have no meaning in Avro, such as
/// `doc`, are its `extra` members: the identity text contains them, and resolution ignores them.
pub type Members = Map<String, Value>;

/// A primitive type (Avro 1.11 specification, Primitive Types).
#[derive(Clone, Copy, Debug, PartialEq, Eq)]
pub enum PrimitiveKind {
    /// `null`
    Null,
    /// `boolean`
    Boolean,
    /// `int`
    Int,
    /// `long`
    Long,
    /// `float`
    Float,
    /// `double`
    Double,
    /// `bytes`
    Bytes,
    /// `string`
    Text,
}

/// How a field counts in the sort order of records (Avro 1.11 specification, Complex Types,
/// Records).
#[derive(Clone, Copy, Debug, PartialEq, Eq)]
pub enum Order {
    /// `ascending`, also the default
    Ascending,
    /// `descending`
    Descending,
    /// `ignore`
    Ignore,
}

/// The name and the aliases of a definition, as full names (Avro 1.11 specification, Names;
/// Aliases).
#[derive(Debug, Drop)]
pub struct Named {
    /// the full name, without a dot in the null namespace
    pub name: String,
    /// the full names of the aliases, in the order of their declaration
    pub aliases: Vec<String>,
}

/// A field of a record (Avro 1.11 specification, Complex Types, Records).
#[derive(Debug, Drop)]
pub struct Field {
    /// the simple name
    pub name: String,
    /// the place of its type
    pub place: u32,
    /// the simple names of the aliases, in the order of their declaration
    pub aliases: Vec<String>,
    /// its sort order
    pub order: Order,
    /// its default, if any
    pub value: Option<Value>,
    /// its other attributes
    pub extra: Members,
}

/// A node of a schema: a type, with the places of the types that it contains.
#[derive(Debug, Drop)]
pub enum Node {
    /// a primitive type
    Primitive {
        kind: PrimitiveKind,
        extra: Members,
    },
    /// an array, with the place of its items
    Array {
        items: u32,
        extra: Members,
    },
    /// a map, with the place of its values
    Map {
        values: u32,
        extra: Members,
    },
    /// a union, with the places of its branches
    Union {
        branches: Vec<u32>,
    },
    /// an enum, with its symbols and its default, if any
    Enum {
        named: Named,
        symbols: Vec<String>,
        fallback: Option<String>,
        extra: Members,
    },
    /// a fixed, with its size in bytes
    Fixed {
        named: Named,
        size: u32,
        extra: Members,
    },
    /// a record, with its fields
    Rec {
        named: Named,
        fields: Vec<Field>,
        extra: Members,
    },
}
