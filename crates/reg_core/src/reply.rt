//! The replies of the registry.

ghost use Rattle.std.specs.Prelude.{◌≡◌, SomeIff, IfOk, string_bytes};
ghost use Rattle.reg_core.specs.Replies.{IsReplyStatus, success, fault};

use crate::code::Code;
use avro_nodes::OutOfMemory;
use std::marker::Model;

/// A status with its body, or the fault of a code, which allocates nothing.
#[derive(Debug, Drop)]
enum Content {
    Written { status: u16, body: String },
    Fault { code: Code },
}

/// The reply to a client: a status and a body. Contracts see both.
#[derive(Debug, Drop)]
pub struct Reply {
    content: Content,
}

impl Model for Reply {
    ghost use Rattle.reg_core.specs.Replies.{ReplyView};

    ghost Value = { ReplyView };

    ghost use Rattle.reg_core.specs.Contents.{reply_of, HasStatus};

    ghost view = { λ reply. reply_of reply.content };

    ghost invariant = { λ reply. HasStatus reply.content };
}

impl Reply {
    /// A reply with this status and body, or `None` unless the status is 200, 400, 404, 405, 409,
    /// 413, 422, 500 or 501. It allocates nothing.
    pub fn new(status: u16, body: String) -> Option<Reply>
        ensures { SomeIff result (IsReplyStatus status) (record { status = status; body = string_bytes body }) }
    {
        match status {
            200 | 400 | 404 | 405 | 409 | 413 | 422 | 500 | 501 => Some(Reply {
                content: Content::Written { status, body },
            }),
            _ => None,
        }
    }

    /// The reply for a code: its status, and `{"error_code":n,"message":"M"}`. It allocates
    /// nothing.
    pub fn fault(code: Code) -> Reply
        ensures { result ≡ fault code }
    {
        Reply {
            content: Content::Fault { code },
        }
    }

    /// The reply to a command that succeeds: status 200 with this body.
    pub(crate) fn success(body: String) -> Reply
        ensures { result ≡ success (string_bytes body) }
    {
        Reply {
            content: Content::Written { status: 200, body },
        }
    }

    /// The HTTP status, one of the nine that a reply may have.
    pub fn status(&self) -> u16
        ensures value { result ≡ self.now.status }
        ensures nine { IsReplyStatus result }
    {
        match &self.content {
            Content::Written { status, .. } => *status,
            Content::Fault { code } => code.status(),
        }
    }

    /// The body.
    pub fn body(&self) -> &str
        ensures { result.now ≡ self.now.body }
    {
        match &self.content {
            Content::Written { body, .. } => body.as_str(),
            Content::Fault { code } => code.fault_body(),
        }
    }

    /// A copy. Copying a fault allocates nothing.
    ///
    /// # Errors
    ///
    /// `OutOfMemory` if an allocation for the body fails.
    pub fn try_clone(&self) -> Result<Reply, OutOfMemory>
        ensures { IfOk result (λ copy. copy ≡ self.now) }
    {
        let content = match &self.content {
            Content::Written { status, body } => Content::Written {
                status: *status,
                body: body.clone()?,
            },
            Content::Fault { code } => Content::Fault { code: *code },
        };
        Ok(Reply { content })
    }
}
