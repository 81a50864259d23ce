//! Reads the texts of Avro schemas. Accepts exactly the texts that denote a schema, unless
//! allocation fails.

#![tactic(auto)]

mod attribute_map;
mod attributes;
mod borrowed;
mod defaults;
mod definitions;
mod distinct;
mod error;
mod field_attributes;
mod index;
mod indexing;
mod keywords;
mod mentions;
mod name_table;
mod names;
mod nesting;
mod others;
mod owned_values;
mod owning;
mod ranking;
mod reading;
mod references;
mod schema;
mod source;
mod tables;
mod weight;

pub use avro_nodes::OutOfMemory;
pub use error::SchemaError;
pub use index::{FieldRanks, Index, NamedRanks, Ranks};
pub use schema::{Schema, denoting_is_decided, identity_denotes};
