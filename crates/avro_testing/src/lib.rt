//! Helpers of the schema tests and of the benchmark: templates of long texts, and random pairs of schemas. They have no
//! contracts.

#![tactic(auto)]

mod random;
mod text;

pub use random::random_text;
pub use text::{Template, expand};
