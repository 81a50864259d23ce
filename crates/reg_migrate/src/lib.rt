//! The migration of a registry from layout 1 to layout 2, in one transaction.
//!
//! Clauses about the tables are true if the disk has returned what was written to it
//! (`HasCleanDisk`).

#![tactic(auto)]

mod error;
mod migrating;
mod statements;

pub use error::MigrateError;
pub use migrating::{Report, migrate};
