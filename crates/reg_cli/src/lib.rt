//! The program's arguments, as `clap` parses them.

#![tactic(auto)]

mod command;
mod fault;
mod parsing;
mod task;
mod values;

pub use fault::LineFault;
pub use parsing::task_of;
pub use task::{Job, ListingKind, MAX_CONNECTIONS, Server, Task};
