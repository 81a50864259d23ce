//! Whether a message ends the connection (RFC 9112, section 9).

ghost use Rattle.std.specs.Prelude.{◌≡◌};
ghost use Rattle.reg_messages.specs.BorrowedRequests.{fields_in};
ghost use Rattle.reg_messages.specs.Closing.{closes_by};

use crate::request::Request;
use http1::fields::KnownFields;

impl<'a> Request<'a> {
    /// Whether the connection ends after the response to this message. It does for HTTP/1.0, or if
    /// a `Connection` field lists `close`, regardless of case. (RFC 9112, sections 9.3 and 9.6.)
    pub fn closes(&self) -> bool
        ensures { result ≡ closes_by self.now.minor (fields_in self.now) }
    {
        self.minor == 0 || KnownFields::from_spans(self.head, self.fields).close
    }
}
