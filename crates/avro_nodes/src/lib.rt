//! The nodes of an Avro schema, the rule for the numbers in its text, and its identity text.

#![tactic(auto)]

mod attributes;
mod compact;
mod error;
mod identity;
mod limits;
mod names;
mod node;
mod plain;
mod respelling;
mod value;

pub use error::OutOfMemory;
pub use identity::identity_of;
pub use limits::{MAX_NESTING, MAX_PLACES, MAX_TEXT};
pub use names::{has_dot, last_part, namespace_of};
pub use node::{Field, Members, Named, Node, Order, PrimitiveKind};
pub use plain::{plain_of, respelling_of};
pub use respelling::Respelling;
