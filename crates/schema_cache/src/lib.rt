//! A cache of parsed schemas.

#![tactic(auto)]

mod cache;
mod cache_lookup;
mod entry;
mod lru_entries;

pub use cache::{EvictionPolicy, SchemaCache};
pub use cache_lookup::CacheLookup;
