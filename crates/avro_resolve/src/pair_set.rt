//! Sets of pairs of places.

use crate::AllocResult;
use std::alloc::Global;

/// A set of pairs of places, the writer's first: one bit a pair, up to the last one inserted.
#[derive(Drop)]
pub struct PairSet {
    words: Vec<u64>,
    readers: u32,
}

impl PairSet {
    ghost use Rattle.std.specs.Prelude.{◌≡◌, ℕ, ◌+◌, ◌*◌, ◌<◌, OnOk, ◌==◌, ◌&&◌, if◌then◌else◌, true, false};
    ghost use Rattle.avro_resolve.specs.Inside.PairSets.{has};

    /// The empty set, for a reader with this number of places.
    pub fn none(alloc: Global, readers: u32) -> PairSet
        ensures readers { result.readers ≡ readers }
        ensures empty { (i j : ℕ) → has result i j ≡ false }
    {
        PairSet {
            words: Vec::new(alloc),
            readers,
        }
    }

    /// If j is a place of the reader, returns whether the pair is in the set.
    pub fn has(&self, i: u32, j: u32) -> bool
        ensures { result ≡ has self.now i j }
    {
        let at = self.place(i, j);
        match self.words.get(at / 64) {
            Some(word) => (*word >> (at % 64)) & 1 == 1,
            None => false,
        }
    }

    /// Adds the pair.
    pub fn insert(&mut self, i: u32, j: u32) -> AllocResult<()>
        requires { j < self.old.readers }
        ensures readers { OnOk result (self.new.readers ≡ self.old.readers) }
        ensures others { OnOk result ((a b : ℕ) → b < self.old.readers
            → has self.new a b ≡ (if a == i && b == j then true else has self.old a b)) }
    {
        let at = self.place(i, j);
        if self.words.len() <= at / 64 {
            self.words.resize(at / 64 + 1, 0)?;
        }
        self.words[at / 64] |= 1 << (at % 64);
        Ok(())
    }

    /// Removes the pair.
    pub fn remove(&mut self, i: u32, j: u32)
        requires { j < self.old.readers }
        ensures readers { self.new.readers ≡ self.old.readers }
        ensures others { (a b : ℕ) → b < self.old.readers
            → has self.new a b ≡ (if a == i && b == j then false else has self.old a b) }
    {
        let at = self.place(i, j);
        if at / 64 < self.words.len() {
            self.words[at / 64] &= !(1 << (at % 64));
        }
    }

    /// The index of the pair's bit.
    fn place(&self, i: u32, j: u32) -> usize
        ensures { result ≡ i * self.now.readers + j }
    {
        i as usize * self.readers as usize + j as usize
    }
}
