//! Retries: a write that is sent again with its retry key is applied exactly once and gets its
//! first reply.

#![tactic(auto)]

mod delivery;
mod error;
mod kept;
mod laws;
mod schemas;
mod service;

pub use laws::lists_continue_after_crash;
pub use reg_core::{Delivery, OutOfMemory};
pub use service::Service;
