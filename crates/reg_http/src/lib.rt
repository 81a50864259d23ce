//! The registry over HTTP/1.1: reads requests from a stream, executes them and writes responses, in
//! order.

#![tactic(auto)]

mod answering;
mod buffer;
mod conversation;
mod outbox;
mod serving;
mod workspace;
mod writing;

pub use conversation::{Conversation, Step};
pub use reg_messages::bytes_of;
pub use reg_routes::{Routes, command_of};
pub use serving::{Ended, serve};
pub use workspace::Workspace;
