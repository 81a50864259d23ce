//! Tests whether the rows of the tables spell a registry and its kept replies. The rows are lists:
//! this crate knows nothing of how they are stored.

#![tactic(auto)]

mod meta;
mod positions;
mod rows;
mod tables;
mod texts;

pub use meta::{is_layout_one_meta, is_layout_two_meta, layout_of};
pub use positions::are_contiguous;
pub use reg_core::OutOfMemory;
pub use rows::{fits_kept, fits_levels, fits_modes, fits_versions, is_level_name};
pub use tables::{Tables, spells};
pub use texts::{are_consecutive_ids, are_texts, is_identity};
