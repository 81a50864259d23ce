//! A whole message, borrowed from the input.

ghost use Rattle.std.specs.Prelude.{length, All};
ghost use Rattle.httparse.specs.Spans.{IsHeaderWithin};

use crate::message::MessageSpans;
use httparse::spans::HeaderSpan;

/// A whole message, borrowed from the input. (RFC 9112, section 2.1.)
#[derive(Clone, Copy)]
pub struct Request<'a> {
    /// The method.
    pub method: &'a [u8],
    /// The target, as sent.
    pub target: &'a [u8],
    /// The minor version of HTTP/1: 0 or 1.
    pub minor: u8,
    /// The bytes of the head, to which the spans of the fields refer.
    pub head: &'a [u8],
    /// The spans of the head's fields.
    pub fields: &'a [HeaderSpan],
    /// The body.
    pub body: &'a [u8],
    ghost fields_within: { All (IsHeaderWithin (length head.now)) fields.now },
}

impl<'a> Request<'a> {
    ghost use Rattle.reg_messages.specs.ParseOutcomes.{IsWholeMessage};
    ghost use Rattle.reg_messages.specs.Messages.{Message};
    ghost use Rattle.reg_messages.specs.BorrowedRequests.{Borrows};

    /// The whole message at the front of the bytes, by the spans that `parse_front` found.
    pub fn from_spans(
        bytes: &'a [u8],
        headers: &'a [HeaderSpan],
        whole: MessageSpans,
    ) -> Request<'a>
        requires { (message : Message) × IsWholeMessage bytes.now headers.now whole message }
        ensures { (message : Message) → IsWholeMessage bytes.entry.now headers.entry.now whole message
            → Borrows result message }
    {
        let (head, rest) = bytes.split_at(whole.head.len);
        Request {
            method: whole.head.method.of(head),
            target: whole.head.path.of(head),
            minor: whole.head.version,
            head,
            fields: &headers[..whole.head.headers],
            body: &rest[..whole.body],
        }
    }
}
