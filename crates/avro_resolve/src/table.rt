//! The remaining pairs of places.

ghost use Rattle.std.specs.Prelude.{◌*◌, ◌<◌, ◌≡◌, ◌≤◌, false, vec_len, IsTrue, ℕ};

use crate::AllocResult;
use std::alloc::Global;
use std::cell::Cell;

/// How many of the reader's places `next_difference` compares in one step.
const BLOCK: usize = 64;

/// A set of pairs of places, the writer's first: one flag a pair. If the reader has unions, a pair
/// also has a hint: the branch to check first.
#[derive(Drop)]
pub struct Table {
    flags: Vec<bool>,
    hints: Vec<Cell<u16>>,
    writers: usize,
    readers: usize,
    ghost sized: { vec_len flags ≡ writers * readers },
}

impl Table {
    ghost use Rattle.std.specs.Prelude.{ℕ, ◌≡◌, ◌+◌, ◌^◌, ◌<◌, IfOk, IsTrue, ◌==◌, ◌&&◌, if◌then◌else◌, false};
    ghost use Rattle.avro_resolve.specs.Inside.Remaining.{remains, count_remaining, SameShape};

    /// All pairs of these numbers of places, with hints or without.
    pub fn all(alloc: Global, writers: usize, readers: usize, hinted: bool) -> AllocResult<Table>
        requires { writers * readers < 2 ^ 64 }
        ensures writers { IfOk result (λ t. t.writers ≡ writers) }
        ensures readers { IfOk result (λ t. t.readers ≡ readers) }
        ensures whole { IfOk result (λ t. (i j : ℕ) → i < writers → j < readers → IsTrue (remains t i j)) }
        ensures count { IfOk result (λ t. count_remaining t ≡ writers * readers) }
    {
        let flags = vec![in alloc; true; writers * readers]?;
        let count = if hinted { flags.len() } else { 0 };
        let hints = vec![in alloc; Cell::new(0); count]?;
        Ok(Table {
            flags,
            hints,
            writers,
            readers,
        })
    }

    /// Whether the pair remains.
    pub fn has(&self, i: u32, j: u32) -> bool
        requires i_in { i < self.now.writers }
        requires j_in { j < self.now.readers }
        ensures { result ≡ remains self.now i j }
    {
        self.flags[i as usize * self.readers + j as usize]
    }

    /// Whether some column at or after `from`, and before `to`, remains in row i and not in row k.
    fn has_difference(&self, i: u32, k: u32, from: usize, to: usize) -> bool
        requires i_in { i < self.now.writers }
        requires k_in { k < self.now.writers }
        requires to_in { to ≤ self.now.readers }
        ensures { result ≡ false → (j : ℕ) → from ≤ j → j < to → IsTrue (remains self.now i j) → IsTrue (remains self.now k j) }
    {
        let (row, other) = (i as usize * self.readers, k as usize * self.readers);
        let mut apart = false;
        for at in from..to {
            apart |= self.flags[row + at] & !self.flags[other + at];
        }
        apart
    }

    /// The first column at or after `from` that remains in row i and not in row k, or the number of
    /// columns.
    pub fn next_difference(&self, i: u32, k: u32, from: usize) -> usize
        requires i_in { i < self.now.writers }
        requires k_in { k < self.now.writers }
        requires from_in { from ≤ self.now.readers }
        ensures on { from ≤ result }
        ensures within { result ≤ self.now.readers }
        ensures before { (j : ℕ) → from ≤ j → j < result → IsTrue (remains self.now i j) → IsTrue (remains self.now k j) }
        ensures at { result < self.now.readers → remains self.now k result ≡ false }
    {
        let (row, other) = (i as usize * self.readers, k as usize * self.readers);
        let mut start = from;
        while start < self.readers {
            let end = start + BLOCK.min(self.readers - start);
            if self.has_difference(i, k, start, end) {
                for at in start..end {
                    if self.flags[row + at] && !self.flags[other + at] {
                        return at;
                    }
                }
            }
            start = end;
        }
        self.readers
    }

    /// The index of the branch to check first, or `None` if the reader has no unions.
    pub fn hint(&self, i: u32, j: u32) -> Option<&Cell<u16>>
        requires i_in { i < self.now.writers }
        requires j_in { j < self.now.readers }
    {
        self.hints.get(i as usize * self.readers + j as usize)
    }

    /// Eliminates the pair.
    pub fn eliminate(&mut self, i: u32, j: u32)
        requires i_in { i < self.old.writers }
        requires j_in { j < self.old.readers }
        requires there { IsTrue (remains self.old i j) }
        ensures shape { SameShape self.old self.new }
        ensures others { (a b : ℕ) → remains self.new a b ≡ (if a == i && b == j then false else remains self.old a b) }
        ensures fewer { count_remaining self.new + 1 ≡ count_remaining self.old }
    {
        let k = i as usize * self.readers + j as usize;
        self.flags[k] = false;
    }
}
