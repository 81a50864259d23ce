//! The index of a schema: all its names in byte order, without duplicates. The rank of a name is
//! its position in this list.

/// The ranks of a definition's names.
#[derive(Debug, Drop)]
pub struct NamedRanks {
    /// the rank of the last part of the full name
    pub last: u32,
    /// the rank of the full name
    pub full: u32,
    /// the ranks of the aliases, ascending and without duplicates
    pub aliases: Vec<u32>,
}

/// The ranks of a field's names.
#[derive(Debug, Drop)]
pub struct FieldRanks {
    /// the rank of the name
    pub name: u32,
    /// the ranks of the aliases, in the order of the declaration
    pub aliases: Vec<u32>,
}

/// The ranks of a node's names.
#[derive(Debug, Drop)]
pub enum Ranks {
    /// a node without names: a primitive type, an array, a map or a union
    Unnamed,
    /// a `fixed` type
    Fixed {
        named: NamedRanks,
    },
    /// an enum; the ranks of its symbols are ascending and without duplicates
    Enum {
        named: NamedRanks,
        symbols: Vec<u32>,
    },
    /// a record, with its fields in the order of the declaration
    Rec {
        named: NamedRanks,
        fields: Vec<FieldRanks>,
    },
}

/// The names of a schema in byte order without duplicates, and the ranks of each node's names, by
/// place.
#[derive(Debug, Drop)]
pub struct Index {
    pub names: Vec<String>,
    pub ranks: Vec<Ranks>,
}
