//! Listings as CSV.

#![tactic(auto)]

mod buffer;
mod error;
mod lines;
mod reports;

pub use error::ReportError;
pub use reports::{list, list_in_pieces, list_schemas, list_subjects, list_versions};
