//! What the server needs of a network. `Sockets` has it over a listener of the system, and knows no
//! bytes. A network in memory, which knows all of them, is in the tests.

use std::io;
use std::io::{Read, Write};

/// The bytes to a client. No write blocks.
pub trait Output: Write {
    ghost use Rattle.std.specs.Io.KnownBytes.{Keeps};

    /// Ends the output, so that the client sees that no further response comes. Returns whether
    /// that succeeded.
    fn end(&mut self) -> bool
        ensures { Keeps (Self.contents self.old) (Self.contents self.new) };
}

/// What happened to a connection.
#[derive(Clone, Copy)]
pub struct Readiness {
    /// The key under which the connection was accepted.
    pub key: usize,
    /// Bytes, or the end of the input, may have arrived.
    pub is_readable: bool,
    /// The connection may take bytes.
    pub is_writable: bool,
    /// The client ended its output, or the connection failed.
    pub has_hung_up: bool,
}

impl Readiness {
    /// What happened to the connection with this key. If it has hung up, the end of its input may
    /// have arrived.
    pub fn of(key: usize, is_readable: bool, is_writable: bool, has_hung_up: bool) -> Readiness {
        Readiness {
            key,
            is_readable: is_readable || has_hung_up,
            is_writable,
            has_hung_up,
        }
    }
}

/// A listener and the connections that it accepts. A connection is the bytes from its client, of which
/// no read blocks, and the bytes to it.
pub trait Network<I: Read, O: Output> {
    ghost use Rattle.std.specs.Prelude.{[], ◌∷◌, List, Option, None, IfOk, OnErr};
    ghost use Rattle.reg_jobs.specs.Networks.{ChangesNothing, Adds};

    // The connections that were accepted, in order, as they were then, if that is known.
    ghost accepted: { Self → Option (List (I × O)) } = { λ _. None };

    // The connections that were closed, in order, as they were then, if that is known.
    ghost closed: { Self → Option (List (I × O)) } = { λ _. None };

    /// Accepts a connection that waits, if any. Its events are reported under this key from now on.
    /// It doesn't block.
    ///
    /// # Errors
    ///
    /// `WouldBlock` if no connection waits. Any other error means that none can be accepted now, or
    /// that the accepted one was closed at once.
    fn accept(&mut self, key: usize) -> io::Result<(I, O)>
        ensures ok { IfOk result (λ halves. Adds (accepted self.old) (accepted self.new) (halves ∷ [])
            × Adds (closed self.old) (closed self.new) []) }
        ensures err { OnErr result (ChangesNothing accepted closed self.old self.new) };

    /// Waits until something happens, at most for this number of milliseconds if there is one.
    /// Replaces the contents of `ready` by what happened to connections. Returns whether a
    /// connection may wait to be accepted.
    fn wait(&mut self, millis: Option<u64>, ready: &mut Vec<Readiness>) -> bool
        ensures { ChangesNothing accepted closed self.old self.new };

    /// Closes a connection.
    fn close(&mut self, input: I, output: O)
        ensures opens { Adds (accepted self.old) (accepted self.new) [] }
        ensures closes { Adds (closed self.old) (closed self.new) ((input, output) ∷ []) };
}
