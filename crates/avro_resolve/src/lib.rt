//! Whether a reader's schema can read what a writer's schema wrote (Avro 1.11, Schema Resolution).

#![tactic(auto)]

mod agreeing;
mod elimination;
mod field_slots;
mod links;
mod lists;
mod pair_set;
mod readable;
mod recursion;
mod resolving;
mod rows;
mod schemas;
mod support;
mod table;
mod work_meter;

pub use avro_nodes::OutOfMemory;
pub use resolving::{
    Verdict, resolution_is_decided, resolves, resolves_plain, resolves_with_itself,
};
use std::alloc::AllocError;

/// A result whose only error is that allocation failed.
type AllocResult<T> = Result<T, AllocError>;
