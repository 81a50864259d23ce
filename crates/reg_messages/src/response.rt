//! The bytes of a response (RFC 9112, sections 2 to 6).

ghost use Rattle.std.specs.Prelude.{◌≡◌, IfOk, option_map, string_bytes};
ghost use Rattle.http.specs.StatusCode.{IsStatusCode};
ghost use Rattle.reg_messages.specs.Responses.{response_bytes, status_line, content_length_line, allow_line, connection_line, reason_phrase_of};

use http::StatusCode;
use reg_core::{OutOfMemory, Reply};
use std::alloc::Global;

/// The line with the body's media type.
const CONTENT_TYPE_LINE: &str = "Content-Type: application/vnd.schemaregistry.v1+json\r\n";

/// The reason phrase of a status, from the table of `http`. Empty if the table has none.
fn reason_phrase_of(status: u16) -> &'static str
    requires { IsStatusCode status }
    ensures { result.now ≡ reason_phrase_of status }
{
    match StatusCode::from_u16(status) {
        Ok(status) => status.canonical_reason().unwrap_or(""),
        Err(_) => "",
    }
}

/// The status line with its CR LF: the version HTTP/1.1, the status, and its reason phrase, which may
/// be empty (RFC 9112, section 4).
fn status_line(alloc: Global, status: u16) -> Result<String, OutOfMemory>
    requires { IsStatusCode status }
    ensures { IfOk result (λ line. string_bytes line ≡ status_line status) }
{
    let phrase = reason_phrase_of(status);
    Ok(format!(in alloc; "HTTP/1.1 {status} {phrase}\r\n")?)
}

/// The line with the body's length in bytes, with its CR LF.
fn content_length_line(alloc: Global, length: usize) -> Result<String, OutOfMemory>
    ensures { IfOk result (λ line. string_bytes line ≡ content_length_line length) }
{
    Ok(format!(in alloc; "Content-Length: {length}\r\n")?)
}

/// The `Allow` line, or nothing.
fn allow_line(alloc: Global, allow: Option<&str>) -> Result<String, OutOfMemory>
    ensures { IfOk result (λ line. string_bytes line
        ≡ allow_line (option_map (λ text. text.now) allow.entry)) }
{
    match allow {
        None => Ok(String::new(alloc)),
        Some(methods) => Ok(format!(in alloc; "Allow: {methods}\r\n")?),
    }
}

/// The line that announces the end of the connection, or nothing.
fn connection_line(close: bool) -> &'static str
    ensures { result.now ≡ connection_line close }
{
    if close { "Connection: close\r\n" } else { "" }
}

/// The bytes of a response: status line, fields and body. `allow` has the methods for an `Allow`
/// field. `close` adds `Connection: close`.
///
/// # Errors
///
/// `OutOfMemory` if an allocation fails.
pub fn bytes_of(
    alloc: Global,
    reply: &Reply,
    allow: Option<&str>,
    close: bool,
) -> Result<String, OutOfMemory>
    ensures { IfOk result (λ text. string_bytes text
        ≡ response_bytes reply.now (option_map (λ text. text.now) allow.entry) close) }
{
    let mut text = status_line(alloc, reply.status())?;
    text.push_str(CONTENT_TYPE_LINE)?;
    text.push_str(allow_line(alloc, allow)?.as_str())?;
    text.push_str(content_length_line(alloc, reply.body().len())?.as_str())?;
    text.push_str(connection_line(close))?;
    text.push_str("\r\n")?;
    text.push_str(reply.body())?;
    Ok(text)
}
