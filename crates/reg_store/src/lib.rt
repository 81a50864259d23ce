//! A schema registry and its kept replies in a database: created, read and changed in whole
//! transactions.
//!
//! Clauses about the tables are true if the disk has returned what was written to it
//! (`HasCleanDisk`).

#![tactic(auto)]

mod changes;
mod conn;
mod error;
mod keep;
mod laws;
mod layout;
mod listing;
mod open_connection;
mod rowids;
mod store;
mod table_checks;

pub use error::StoreError;
pub use keep::Keep;
pub use laws::tables_spell_one_state;
pub use listing::Listing;
pub use store::{Lines, Store, check_first, create_first};
