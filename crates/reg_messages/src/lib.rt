//! HTTP messages: parses requests from bytes, and writes responses as bytes.

#![tactic(auto)]

mod closing;
mod fields;
mod framing;
mod message;
mod request;
mod response;

pub use fields::FieldLookup;
pub use framing::MAX_BODY;
pub use message::{MAX_HEAD, MessageSpans, ParseOutcome, parse_front, parse_is_unique};
pub use reg_core::OutOfMemory;
pub use request::Request;
pub use response::bytes_of;
