//! The limits of a schema (this project's choice).

/// The maximum length of a schema text and of its identity text, in bytes.
pub const MAX_TEXT: usize = 1048576;

/// The maximum number of places of a schema.
pub const MAX_PLACES: usize = 4096;

/// The maximum nesting depth of a schema's types (the root has depth 1), and of a default and each
/// other attribute.
pub const MAX_NESTING: u32 = 24;
