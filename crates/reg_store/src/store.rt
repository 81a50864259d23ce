//! The store.

use crate::conn::Conn;
use sqlite::Alter;
use std::alloc::Global;

mod applying;
mod auditing;
mod checking;
mod chosen;
mod creating;
mod cursor;
mod last_with_id;
mod levels;
mod line_iterator;
mod lines;
mod listing;
mod modes;
mod next_rows;
mod opening;
mod reading;
mod rows;
mod schema_lines;
mod settings;
mod stepping;
mod subject_lines;
mod sufficient_rows;
mod texts;
mod viewing;

pub use checking::check_first;
pub use creating::create_first;
pub use line_iterator::Lines;

/// A schema registry and its kept replies in a database. Contracts use the state of its connection
/// (`state_of`) and whether the store has returned `Disk` (`has_failed`).
#[derive(Drop)]
pub struct Store<S: Alter> {
    alloc: Global,
    db: Conn<S>,
    failed: bool,
}
