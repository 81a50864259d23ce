//! A network in memory, which knows every byte and reports it: what its clients send, and the
//! responses that they expect.

ghost use Rattle.std.specs.Prelude.{◌<◌, List, Option, Some, take, ℕ};

use reg_jobs::{Network, Output, Readiness};
use std::io::{self, ErrorKind, Read, Write};
use std::process::Abort;

/// The maximum number of bytes in one read or write.
const PIECE: usize = 7;

/// The bytes that a client sends. Every other read finds nothing yet.
#[derive(Clone, Copy)]
pub(super) struct ScriptInput<'a> {
    left: &'a [u8],
    waits: bool,
}

impl<'a> Read for ScriptInput<'a> {
    ghost remaining = { λ i. Some i.left.now };

    fn read(&mut self, buf: &mut [u8]) -> io::Result<usize> {
        self.waits = !self.waits;
        if self.waits {
            return Err(io::Error::from(ErrorKind::WouldBlock));
        }
        let size = PIECE.min(self.left.len()).min(buf.len());
        buf[..size].copy_from_slice(&self.left[..size]);
        self.left = &self.left[size..];
        Ok(size)
    }
}

/// The bytes that a client expects, and how many of them came. Every other write finds no room. A
/// write of another byte fails.
#[derive(Clone, Copy)]
pub(super) struct ScriptOutput<'a> {
    due: &'a [u8],
    size: usize,
    waits: bool,
}

impl<'a> Write for ScriptOutput<'a> {
    ghost contents = { λ o. Some (take o.size o.due.now) };

    fn write(&mut self, buf: &[u8]) -> io::Result<usize> {
        self.waits = !self.waits;
        if self.waits {
            return Err(io::Error::from(ErrorKind::WouldBlock));
        }
        let Some(left) = self.due.len().checked_sub(self.size) else {
            return Err(io::Error::from(ErrorKind::BrokenPipe));
        };
        let size = PIECE.min(buf.len()).min(left);
        if self.due[self.size..self.size + size] != buf[..size] {
            return Err(io::Error::from(ErrorKind::BrokenPipe));
        }
        self.size += size;
        Ok(size)
    }

    fn flush(&mut self) -> io::Result<()> {
        Ok(())
    }
}

impl<'a> Output for ScriptOutput<'a> {
    fn end(&mut self) -> bool {
        true
    }
}

/// A connection: what its client sends, and what it expects.
pub(super) type Halves<'a> = (ScriptInput<'a>, ScriptOutput<'a>);

/// The connection of a client that sends and expects these bytes.
pub(super) fn script<'a>(sent: &'a [u8], due: &'a [u8]) -> Halves<'a> {
    let input = ScriptInput {
        left: sent,
        waits: false,
    };
    let output = ScriptOutput {
        due,
        size: 0,
        waits: false,
    };
    (input, output)
}

/// Whether the client has sent all of its bytes, and all that it expects came.
pub(super) fn is_complete(halves: &Halves<'_>) -> bool {
    halves.0.left.is_empty() && halves.1.size == halves.1.due.len()
}

/// A network of such connections. Each wait reports one of them, in turn.
#[derive(Drop)]
pub(super) struct Scripts<'a, A: Abort> {
    pub(super) rt: &'a A,
    /// The connections, in the order in which they are accepted.
    pub(super) clients: &'a [Halves<'a>],
    pub(super) accepted: Vec<Halves<'a>>,
    pub(super) closed: Vec<Halves<'a>>,
    pub(super) turn: usize,
}

impl<'a, A: Abort> Network<ScriptInput<'a>, ScriptOutput<'a>> for Scripts<'a, A> {
    ghost accepted = { λ s. Some s.accepted.items };

    ghost closed = { λ s. Some s.closed.items };

    fn accept(&mut self, _key: usize) -> io::Result<Halves<'a>> {
        let Some(next) = self.clients.get(self.accepted.len()) else {
            return Err(io::Error::from(ErrorKind::WouldBlock));
        };
        let halves = *next;
        self.accepted.push(halves)?;
        Ok(halves)
    }

    fn wait(&mut self, _millis: Option<u64>, ready: &mut Vec<Readiness>) -> bool {
        self.turn = self.turn.saturating_add(1);
        ready.clear();
        let _ = ready.push(Readiness {
            key: self.turn % self.accepted.len().max(1),
            is_readable: true,
            is_writable: true,
            has_hung_up: false,
        });
        self.accepted.len() < self.clients.len()
    }

    fn close(&mut self, input: ScriptInput<'a>, output: ScriptOutput<'a>) {
        if self.closed.push((input, output)).is_err() {
            self.rt.abort();
        }
    }
}
