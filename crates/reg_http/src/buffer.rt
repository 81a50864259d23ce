//! The bytes that a client sent. A reader fills the buffer, and messages are removed from its front.

ghost use Rattle.std.specs.Prelude.{◌≡◌, ◌≤◌, ◌<◌, ◌+◌, ◌-◌, ◌++◌, [], ℕ, List, length, take, drop, IfOk, OnOk, OnErr, slice_range, vec_len};
ghost use Rattle.std.specs.Io.KnownBytes.{Consumes, IsAtEnd, Keeps};
ghost use Rattle.reg_messages.specs.Framing.{max_body};
ghost use Rattle.reg_messages.specs.Messages.{max_head};

use reg_core::OutOfMemory;
use std::alloc::Global;
use std::io;
use std::io::Read;
use std::marker::Model;

/// The largest capacity of a buffer in bytes: a head and a body at their limits.
pub const MAX_ROOM: usize = 1_064_960;

/// The capacity in bytes at the first read. It holds most requests.
pub const FIRST_ROOM: usize = 4096;

/// The factor by which a full buffer grows.
const GROWTH: usize = 4;

/// Bytes that were read and not yet consumed. Contracts see these bytes. The buffer grows as bytes
/// arrive.
#[derive(Drop)]
pub struct Buffer {
    bytes: Vec<u8>,
    first: usize,
    last: usize,
}

impl Model for Buffer {
    ghost use Rattle.std.specs.Prelude.{ℕ, List, ◌≡◌, ◌≤◌, ◌+◌, slice_range, vec_len};
    ghost use Rattle.std.specs.Coded.{coded_list, coded_ℕ};
    ghost use Rattle.reg_messages.specs.Framing.{max_body};
    ghost use Rattle.reg_messages.specs.Messages.{max_head};

    ghost Value = { List ℕ };

    ghost coded = { coded_list coded_ℕ };

    ghost view = { λ b. slice_range b.bytes.items b.first b.last };

    ghost invariant = { λ b. (b.first ≤ b.last) × (b.last ≤ vec_len b.bytes)
        × (vec_len b.bytes ≤ max_head + max_body) };
}

/// Reads once, into the bytes from position `at` on, and returns the number of bytes read: 0 at the
/// end of the input, or if there is no byte to fill. The length and the bytes before `at` stay.
fn read_into<R: Read>(bytes: &mut Vec<u8>, at: usize, reader: &mut R) -> io::Result<usize>
    requires { at ≤ vec_len bytes.old }
    ensures len { vec_len bytes.new ≡ vec_len bytes.old }
    ensures front { take at bytes.new.items ≡ take at bytes.old.items }
    ensures ok { IfOk result (λ n. (at + n ≤ vec_len bytes.new)
        × Consumes (R.remaining reader.old) (R.remaining reader.new) (slice_range bytes.new.items at (at + n))
        × (n ≡ 0 → at < vec_len bytes.old → IsAtEnd (R.remaining reader.new))) }
    ensures err { OnErr result (Keeps (R.remaining reader.old) (R.remaining reader.new)) }
{
    let room = &mut bytes.as_mut_slice()[at..];
    reader.read(room)
}

/// Copies the bytes `first..last` to the front.
fn to_front(bytes: &mut Vec<u8>, first: usize, last: usize)
    requires order { first ≤ last }
    requires within { last ≤ vec_len bytes.old }
    ensures len { vec_len bytes.new ≡ vec_len bytes.old }
    ensures moved { take (last - first) bytes.new.items ≡ slice_range bytes.old.items first last }
{
    bytes.copy_within(first..last, 0);
}

/// The capacity after a buffer of this capacity has grown. It is at least twice as large, so that a
/// vector takes no more than it asks for.
fn next_room(room: usize) -> usize
    requires { room < max_head + max_body }
    ensures more { room < result }
    ensures most { result ≤ max_head + max_body }
{
    if room < FIRST_ROOM {
        FIRST_ROOM
    } else if room < MAX_ROOM / GROWTH / 2 {
        room * GROWTH
    } else {
        MAX_ROOM
    }
}

/// Lets a full buffer grow. If the allocation fails, the bytes stay as they were.
fn grow(bytes: &mut Vec<u8>) -> io::Result<()>
    requires { vec_len bytes.old < max_head + max_body }
    ensures ok { OnOk result ((vec_len bytes.old < vec_len bytes.new) × (vec_len bytes.new ≤ max_head + max_body)
        × (take (vec_len bytes.old) bytes.new.items ≡ bytes.old.items)) }
    ensures err { OnErr result ((bytes.new.items ≡ bytes.old.items) × (vec_len bytes.new ≡ vec_len bytes.old)) }
{
    let room = next_room(bytes.len());
    bytes.resize(room, 0)?;
    Ok(())
}

/// Makes room for at least one byte after the bytes `first..last`, and returns their new positions.
/// It copies them to the front only if no room follows them. If they take all room, it grows.
fn make_room(bytes: &mut Vec<u8>, first: usize, last: usize) -> io::Result<(usize, usize)>
    requires order { first ≤ last }
    requires within { last ≤ vec_len bytes.old }
    requires fits { last - first < max_head + max_body }
    requires most { vec_len bytes.old ≤ max_head + max_body }
    ensures ok { IfOk result (λ r. (r.0 ≤ r.1) × (r.1 < vec_len bytes.new) × (vec_len bytes.new ≤ max_head + max_body)
        × (slice_range bytes.new.items r.0 r.1 ≡ slice_range bytes.old.items first last)) }
    ensures err { OnErr result ((bytes.new.items ≡ bytes.old.items) × (vec_len bytes.new ≡ vec_len bytes.old)) }
{
    if last < bytes.len() {
        return Ok((first, last));
    }
    if first == 0 {
        grow(bytes)?;
        return Ok((first, last));
    }
    to_front(bytes, first, last);
    Ok((0, last - first))
}

impl Buffer {
    /// An empty buffer, which allocates nothing before the first read.
    pub fn new(alloc: Global) -> Buffer
        ensures { result ≡ [] }
    {
        Buffer {
            bytes: Vec::new(alloc),
            first: 0,
            last: 0,
        }
    }

    /// An empty buffer with its largest capacity.
    ///
    /// # Errors
    ///
    /// `OutOfMemory` if the allocation fails.
    pub fn with_all_room(alloc: Global) -> Result<Buffer, OutOfMemory>
        ensures { IfOk result (λ buffer. buffer ≡ []) }
    {
        Ok(Buffer {
            bytes: vec![in alloc; 0; MAX_ROOM]?,
            first: 0,
            last: 0,
        })
    }

    /// The capacity in bytes.
    pub fn room(&self) -> usize {
        self.bytes.len()
    }

    /// Whether a byte follows the last one, so that the last read took all that had arrived.
    pub fn has_room_behind(&self) -> bool {
        self.last < self.bytes.len()
    }

    /// Frees the memory of an empty buffer that has grown past its first capacity.
    pub fn shrink(&mut self, alloc: Global)
        ensures { self.new ≡ self.old }
    {
        if self.first == self.last && self.bytes.len() > FIRST_ROOM {
            self.first = 0;
            self.last = 0;
            self.bytes = Vec::new(alloc);
        }
    }

    /// The bytes that aren't consumed.
    pub fn held(&self) -> &[u8]
        ensures { result.now ≡ self.now }
    {
        &self.bytes[self.first..self.last]
    }

    /// Removes the first `count` bytes.
    pub fn consume(&mut self, count: usize)
        requires { count ≤ length self.old }
        ensures { self.new ≡ drop count self.old }
    {
        self.first += count;
    }

    /// Reads once, and appends the bytes. Returns their number; 0 means that the input has ended.
    ///
    /// # Errors
    ///
    /// The error of the read. Nothing has changed then.
    pub fn fill<R: Read>(&mut self, reader: &mut R) -> io::Result<usize>
        requires { length self.old < max_head + max_body }
        ensures ok { IfOk result (λ n. (more : List ℕ) × (self.new ≡ self.old ++ more) × (length more ≡ n)
            × Consumes (R.remaining reader.old) (R.remaining reader.new) more
            × (n ≡ 0 → IsAtEnd (R.remaining reader.new))) }
        ensures err { OnErr result ((self.new ≡ self.old)
            × Keeps (R.remaining reader.old) (R.remaining reader.new)) }
    {
        let (first, last) = make_room(&mut self.bytes, self.first, self.last)?;
        self.first = first;
        self.last = last;
        let count = read_into(&mut self.bytes, self.last, reader)?;
        self.last += count;
        Ok(count)
    }
}
