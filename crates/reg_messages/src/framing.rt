//! The length of a message's body (RFC 9112, section 6).

ghost use Rattle.std.specs.Prelude.{◌≡◌, ◌≤◌, IfOk, map, length, All};
ghost use Rattle.httparse.specs.Spans.{IsHeaderWithin, header_bytes};
ghost use Rattle.reg_messages.specs.Framing.{body_length_from_fields, parse_length, max_body};

use crate::fields::FieldLookup;
use httparse::spans::HeaderSpan;
use reg_core::Code;

/// The maximum size of a body, in bytes.
pub const MAX_BODY: u64 = 1_048_576;

/// The body's length in bytes, from a `Content-Length` value. `MalformedRequest` unless the value
/// is 1 to 19 digits; `BodyTooLarge` above `MAX_BODY`.
fn parse_length(text: &[u8]) -> Result<usize, Code>
    ensures value { result ≡ parse_length text.now }
    ensures within { IfOk result (λ length. length ≤ max_body) }
{
    if text.is_empty() || text.len() > 19 {
        return Err(Code::MalformedRequest);
    }
    let mut n: u64 = 0;
    for b in text {
        if !b.is_ascii_digit() {
            return Err(Code::MalformedRequest);
        }
        n = (n * 10 + u64::from(*b - b'0')).min(MAX_BODY + 1);
    }
    if n > MAX_BODY {
        return Err(Code::BodyTooLarge);
    }
    Ok(n as usize)
}

/// The length of the body in bytes, as the fields of the head say: 0 without a `Content-Length`.
/// `fields` has spans of `head`.
///
/// # Errors
///
/// `TransferCodingNotSupported` if there is a `Transfer-Encoding`. Otherwise `MalformedRequest` if
/// there is more than one `Content-Length`, or one that isn't 1 to 19 digits, and `BodyTooLarge` if
/// the length is above `MAX_BODY`.
pub fn body_length_from_fields(head: &[u8], fields: &[HeaderSpan]) -> Result<usize, Code>
    requires { All (IsHeaderWithin (length head.now)) fields.now }
    ensures value { result ≡ body_length_from_fields (map (header_bytes head.now) fields.now) }
    ensures within { IfOk result (λ length. length ≤ max_body) }
{
    match FieldLookup::by_name(head, fields, b"Transfer-Encoding") {
        FieldLookup::Missing => {}
        FieldLookup::Once(_) => return Err(Code::TransferCodingNotSupported),
        FieldLookup::Repeated => return Err(Code::TransferCodingNotSupported),
    }
    match FieldLookup::by_name(head, fields, b"Content-Length") {
        FieldLookup::Missing => Ok(0),
        FieldLookup::Once(text) => parse_length(text),
        FieldLookup::Repeated => Err(Code::MalformedRequest),
    }
}
