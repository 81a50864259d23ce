//! Shared by the tests: disks in memory, registries and their contents, deliveries with their
//! replies, messages with their responses, and readers and writers that fail. It has no contracts.

mod databases;
mod deliveries;
mod disks;
mod failed;
mod messages;
mod stores;
mod streams;
mod writes;

pub use databases::contents;
pub use deliveries::{Row, answer_each, count_answered, deliveries_of, run_all};
pub use disks::{DatabaseTask, copy, empty_disk, on_disk};
pub use messages::{FULL_KEPT, FULL_SET, GET, IS_BACKWARD, IS_FULL, SET_FULL, joined};
pub use stores::{
    ServiceTask, connection_of, created, in_memory, kept_in_memory, layout1_registry, open_error,
    opened,
};
pub use streams::{Failing, Pieces};
pub use writes::WRITES;
