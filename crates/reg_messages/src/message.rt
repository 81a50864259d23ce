//! Parses the first message of a stream of bytes (RFC 9112, sections 2 to 6).

ghost use Rattle.std.specs.Prelude.{◌≡◌, ℕ, List, length};
ghost use Rattle.reg_messages.specs.ParseOutcomes.{ParsesAs};
ghost use Rattle.reg_messages.specs.Messages.{Message, Messages, Tail, Agree};

use crate::framing::body_length_from_fields;
use httparse::spans::{HeaderSpan, RequestSpans, parse_request};
use httparse::{Error, Status};
use reg_core::Code;

/// The maximum size of a head in bytes, including the empty lines before its request line and at
/// its end.
pub const MAX_HEAD: usize = 16_384;

/// The spans of a whole message at the front of the bytes: those of its head, and its body's length
/// in bytes.
#[derive(Clone, Copy)]
pub struct MessageSpans {
    pub head: RequestSpans,
    pub body: usize,
}

/// What is at the front of the bytes.
#[derive(Clone, Copy)]
pub enum ParseOutcome {
    /// A whole message.
    Whole(MessageSpans),
    /// There are no bytes.
    Nothing,
    /// Less than a whole message. The message has at least this number of bytes.
    Part(usize),
    /// A fault. `MalformedRequest` if the bytes can't become a head of at most `MAX_HEAD` bytes.
    /// Otherwise the code of a fault in the head's fields: `TransferCodingNotSupported`,
    /// `MalformedRequest` or `BodyTooLarge`.
    Faulty(Code),
    /// The bytes begin a head with more fields than there is room for. The head may be incomplete.
    TooManyFields,
}

/// Parses the front of the bytes. `headers` is the room for the spans of the head's fields: 16,384
/// are enough for every head. After `Whole`, pass the same bytes and `headers` to
/// `Request::from_spans`.
pub fn parse_front(bytes: &[u8], headers: &mut [HeaderSpan]) -> ParseOutcome
    ensures { ParsesAs (length headers.old) bytes.now headers.new result }
{
    if bytes.is_empty() {
        return ParseOutcome::Nothing;
    }
    let front = &bytes[..bytes.len().min(MAX_HEAD)];
    match parse_request(front, headers) {
        Ok(Status::Complete(head)) => match body_length_from_fields(
            front,
            &headers[..head.headers],
        ) {
            Err(code) => ParseOutcome::Faulty(code),
            Ok(body) => {
                if bytes.len() - head.len < body {
                    ParseOutcome::Part(head.len + body)
                } else {
                    ParseOutcome::Whole(MessageSpans { head, body })
                }
            }
        },
        Ok(Status::Partial) => {
            if bytes.len() < MAX_HEAD {
                ParseOutcome::Part(bytes.len() + 1)
            } else {
                ParseOutcome::Faulty(Code::MalformedRequest)
            }
        }
        Err(error) => match error {
            Error::TooManyHeaders => ParseOutcome::TooManyFields,
            _ => ParseOutcome::Faulty(Code::MalformedRequest),
        },
    }
}

/// A law: a stream of bytes has at most one list of whole messages and one remainder. If it ends
/// inside a target, the remainder may be both a part and a fault. So the bytes determine their
/// whole messages.
pub fn parse_is_unique()
    ensures { (bytes : List ℕ) (messages other_messages : List Message) (tail other_tail : Tail)
        → (first : Messages bytes messages tail) → Messages bytes other_messages other_tail
        → (messages ≡ other_messages) × Agree first.rest tail other_tail }
{}
