//! Turns a request into a delivery, by its path, method, query, retry key and body. A delivery is a
//! command with its retry key.

#![tactic(auto)]

mod body;
mod command;
mod delivery;
mod only_schema;
mod path_segments;
mod query;
mod resource;
mod routes;
mod split_at_byte;
mod target;

pub use delivery::command_of;
pub use reg_core::OutOfMemory;
pub use resource::{Operation, Resource};
pub use routes::Routes;
