//! The program's jobs and its server: sessions over a registry, connections to a listener, listings,
//! migrations and audits. Also the identity text of a schema in a file, and checks of two schemas.

#![tactic(auto)]

mod auditing;
mod database;
mod errors;
mod files;
mod job;
mod line;
mod listening;
mod listings;
mod migration;
mod name;
mod opening;
mod outcome;

pub use auditing::AuditOutcome;
pub use avro_nodes::OutOfMemory;
pub use errors::ErrorWriter;
pub use job::{do_job, open_store, serve_opened};
pub use line::report;
pub use listening::{Network, NoClock, Output, Readiness, Sockets, serve_network, serve_on};
pub use listings::ListOutcome;
pub use migration::MigrateOutcome;
pub use opening::{Opened, Opener, open_for};
pub use outcome::Outcome;
pub use reg_cli::{Job, LineFault, ListingKind, Server, Task, task_of};
