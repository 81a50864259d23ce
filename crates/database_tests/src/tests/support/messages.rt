//! Messages that set and get the global level, and their responses.

use std::alloc::{AllocError, Global};

/// A message that sets the global level, with a key.
pub const SET_FULL: &str =
    "PUT /config HTTP/1.1\r\nHost: x\r\nRegistry-Retry-Key: k1\r\nContent-Length: 24\r\n\r\n{\"compatibility\":\"FULL\"}";

/// The response to `SET_FULL`.
pub const FULL_SET: &str =
    "HTTP/1.1 200 OK\r\nContent-Type: application/vnd.schemaregistry.v1+json\r\nContent-Length: 24\r\n\r\n{\"compatibility\":\"FULL\"}";

/// The kept reply to `SET_FULL`, as `kept` returns it.
pub const FULL_KEPT: &str = "k1|[\"set-global\",\"FULL\"]|200 {\"compatibility\":\"FULL\"}|\n";

/// A message that gets the global level.
pub const GET: &str = "GET /config HTTP/1.1\r\n\r\n";

/// The response to `GET` in a new registry.
pub const IS_BACKWARD: &str =
    "HTTP/1.1 200 OK\r\nContent-Type: application/vnd.schemaregistry.v1+json\r\nContent-Length: 33\r\n\r\n{\"compatibilityLevel\":\"BACKWARD\"}";

/// The response to `GET` after `SET_FULL`.
pub const IS_FULL: &str =
    "HTTP/1.1 200 OK\r\nContent-Type: application/vnd.schemaregistry.v1+json\r\nContent-Length: 29\r\n\r\n{\"compatibilityLevel\":\"FULL\"}";

/// The parts in one text.
///
/// # Errors
///
/// `AllocError` if an allocation fails.
pub fn joined(alloc: Global, parts: &[&str]) -> Result<String, AllocError> {
    let mut text = String::new(alloc);
    for part in parts {
        text.push_str(part)?;
    }
    Ok(text)
}
