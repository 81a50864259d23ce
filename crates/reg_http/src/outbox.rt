//! The bytes of one response that the client hasn't taken yet.

ghost use Rattle.std.specs.Prelude.{◌≡◌, ◌≤◌, ◌++◌, ◌↔◌, [], ℕ, List, length, take, IsTrue, IfOk, OnErr};
ghost use Rattle.std.specs.Io.KnownBytes.{Appends, Keeps};

use std::alloc::Global;
use std::io;
use std::io::Write;
use std::marker::Model;

/// The capacity in bytes that an empty outbox keeps.
const KEPT_ROOM: usize = 4096;

/// The largest number of bytes in one write.
const MAX_WRITE: usize = 65_536;

/// Bytes that wait to be written. Contracts see these bytes.
#[derive(Drop)]
pub struct Outbox {
    bytes: Vec<u8>,
    start: usize,
}

impl Model for Outbox {
    ghost use Rattle.std.specs.Prelude.{ℕ, List, ◌≤◌, drop, vec_len};
    ghost use Rattle.std.specs.Coded.{coded_list, coded_ℕ};

    ghost Value = { List ℕ };

    ghost coded = { coded_list coded_ℕ };

    ghost view = { λ o. drop o.start o.bytes.items };

    ghost invariant = { λ o. o.start ≤ vec_len o.bytes };
}

/// Writes a beginning of the bytes, at most `MAX_WRITE`, with one write. Returns the number of
/// bytes.
fn write_part<W: Write>(bytes: &[u8], writer: &mut W) -> io::Result<usize>
    ensures ok { IfOk result (λ n. (n ≤ length bytes.now)
        × Appends (W.contents writer.old) (W.contents writer.new) (take n bytes.now)) }
    ensures err { OnErr result (Keeps (W.contents writer.old) (W.contents writer.new)) }
{
    let size = bytes.len().min(MAX_WRITE);
    writer.write(&bytes[..size])
}

impl Outbox {
    /// An empty outbox, which allocates nothing.
    pub fn new(alloc: Global) -> Outbox
        ensures { result ≡ [] }
    {
        Outbox {
            bytes: Vec::new(alloc),
            start: 0,
        }
    }

    /// An outbox with these bytes.
    pub fn of(bytes: Vec<u8>) -> Outbox
        ensures { result ≡ bytes.items }
    {
        Outbox { bytes, start: 0 }
    }

    /// Whether no byte waits.
    pub fn is_empty(&self) -> bool
        ensures { IsTrue result ↔ self.now ≡ [] }
    {
        self.start == self.bytes.len()
    }

    /// The number of bytes that wait.
    pub fn size(&self) -> usize
        ensures { result ≡ length self.now }
    {
        self.bytes.len() - self.start
    }

    /// The number of bytes for which it has memory.
    pub fn room(&self) -> usize {
        self.bytes.capacity()
    }

    /// Frees the memory of an empty outbox that had a large response.
    pub fn shrink(&mut self, alloc: Global)
        ensures { self.new ≡ self.old }
    {
        if self.start == self.bytes.len() && self.bytes.capacity() > KEPT_ROOM {
            self.start = 0;
            self.bytes = Vec::new(alloc);
        }
    }

    /// Writes once, at most 64 KB, and removes what was written. Returns the number of bytes.
    ///
    /// # Errors
    ///
    /// The error of the write. Nothing has changed then.
    pub fn write_to<W: Write>(&mut self, writer: &mut W) -> io::Result<usize>
        ensures ok { IfOk result (λ n. (front : List ℕ) × (self.old ≡ front ++ self.new) × (length front ≡ n)
            × Appends (W.contents writer.old) (W.contents writer.new) front) }
        ensures err { OnErr result ((self.new ≡ self.old) × Keeps (W.contents writer.old) (W.contents writer.new)) }
    {
        let count = write_part(&self.bytes[self.start..], writer)?;
        self.start += count;
        Ok(count)
    }

    /// The empty vector for the next response. It keeps the memory of a small one.
    pub fn into_empty(self) -> Vec<u8>
        ensures { result.items ≡ [] }
    {
        let Outbox {
            mut bytes,
            start: _,
        } = self;
        bytes.clear();
        if bytes.capacity() > KEPT_ROOM {
            bytes.shrink_to_fit();
        }
        bytes
    }
}
