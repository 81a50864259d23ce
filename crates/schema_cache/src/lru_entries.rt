//! The entries of a cache, the most recently used first.

ghost use Rattle.std.specs.Prelude.{◌≡◌, ◌+◌, ◌-◌, ◌≤◌, ◌<◌, [], IfOk, IfErr, OnOk, IsTrue, length, take, option_copied, nat_eq};
ghost use Rattle.std.specs.Map.{lookup, remove_entry};
ghost use Rattle.lru.specs.LruCache.{promoted};
ghost use Rattle.schema_cache.specs.Entries.{entry_text_bytes, text_bytes, max_total_bytes, max_entries, HasRoom, KeepsOthers};

use crate::entry::Entry;
use lru::LruCache;
use std::alloc::{AllocError, Global};
use std::marker::Model;
use std::num::NonZeroUsize;

/// The maximum length of all cached texts together: 384 KiB. Parsed texts full of small objects
/// take about 130 times their length, so a cache of them takes about 51 MB.
pub const MAX_TOTAL_BYTES: usize = 393216;

/// The maximum number of entries.
pub const MAX_ENTRIES: usize = 256;

/// The entries by their ids, the most recently used first.
#[derive(Drop)]
pub struct LruEntries {
    cache: LruCache<u32, Entry>,
    bytes: usize,
}

impl Model for LruEntries {
    ghost use Rattle.std.specs.Prelude.{ℕ, List};
    ghost use Rattle.std.specs.Coded.{coded_list, coded×, coded_ℕ};
    ghost use Rattle.schema_cache.specs.Entries.{EntryView, entry_code};

    ghost Value = { List (ℕ × EntryView) };

    ghost coded = { coded_list (coded× coded_ℕ entry_code) };

    ghost use Rattle.schema_cache.specs.Inside.ByteCounts.{IsCounted};

    ghost view = { λ s. s.cache.entries };

    ghost invariant = { λ s. IsCounted s.cache s.bytes };
}

/// Drops a removed entry, and returns the length of its text; 0 for `None`.
fn freed_bytes(removed: Option<(u32, Entry)>) -> usize
    ensures { result ≡ entry_text_bytes removed }
{
    match removed {
        Some((_, entry)) => entry.text().len(),
        None => 0,
    }
}

impl LruEntries {
    /// Returns an empty list of entries.
    pub fn new(alloc: Global) -> Result<LruEntries, AllocError>
        ensures { IfOk result (λ lru_entries. lru_entries ≡ []) }
    {
        let cache = LruCache::new(alloc, NonZeroUsize::MIN.saturating_add(255))?;
        Ok(LruEntries { cache, bytes: 0 })
    }

    /// Returns the number of entries, and the total length of their texts in bytes.
    pub fn len_and_bytes(&self) -> (usize, usize)
        ensures entries { result.0 ≡ length self.now }
        ensures bytes { result.1 ≡ text_bytes self.now }
        ensures few { result.0 ≤ max_entries }
        ensures small { result.1 ≤ max_total_bytes }
    {
        (self.cache.len(), self.bytes)
    }

    /// Returns the entry of the id.
    pub fn get(&self, id: u32) -> Option<&Entry>
        ensures { option_copied result ≡ lookup (nat_eq id) self.now }
    {
        self.cache.peek(&id)
    }

    /// Makes the entry of the id the most recently used.
    pub fn promote(&mut self, id: u32)
        ensures { self.new ≡ promoted (nat_eq id) self.old }
    {
        self.cache.promote(&id);
    }

    /// Removes the entry of the id.
    pub fn remove(&mut self, id: u32) -> Option<Entry>
        ensures entry { result ≡ lookup (nat_eq id) self.old }
        ensures rest { self.new ≡ remove_entry (nat_eq id) self.old }
    {
        let (_, entry) = self.cache.pop_entry(&id)?;
        self.bytes -= entry.text().len();
        Some(entry)
    }

    /// Whether an entry with a text of this many bytes can be added without evicting any. An entry
    /// that it would replace still counts.
    pub fn has_room(&self, text_len: usize) -> bool
        ensures { IsTrue result → HasRoom text_len self.now }
    {
        self.cache.len() < MAX_ENTRIES && self.bytes.saturating_add(text_len) <= MAX_TOTAL_BYTES
    }

    /// Evicts the least recently used entry.
    fn evict(&mut self)
        ensures { self.new ≡ take (length self.old - 1) self.old }
    {
        let evicted = self.cache.pop_lru();
        self.bytes -= freed_bytes(evicted);
    }

    /// Evicts the least recently used entries until there is room for another text of this many
    /// bytes.
    fn make_room(&mut self, text_len: usize)
        requires { text_len ≤ max_total_bytes }
        ensures text_bytes { text_bytes self.new + text_len ≤ max_total_bytes }
        ensures few { length self.new < max_entries }
        ensures kept { HasRoom text_len self.old → self.new ≡ self.old }
    {
        while self.cache.len() >= MAX_ENTRIES || self.bytes > MAX_TOTAL_BYTES - text_len {
            self.evict();
        }
    }

    /// Inserts the entry under the id, or replaces the id's entry. First evicts the least recently
    /// used entries until there is room for one more, even if the entry replaces another. If an
    /// allocation fails, returns the entry; evicted entries aren't restored.
    pub fn add(&mut self, id: u32, entry: Entry) -> Result<(), Entry>
        ensures ok { OnOk result (lookup (nat_eq id) self.new ≡ Some entry) }
        ensures err { IfErr result (λ back. back ≡ entry) }
        ensures kept { HasRoom (length entry.text) self.old → KeepsOthers id self.old self.new }
    {
        let text_len = entry.text().len();
        self.make_room(text_len);
        match self.cache.push(id, entry) {
            Ok(replaced) => {
                self.bytes = self.bytes + text_len - freed_bytes(replaced);
                Ok(())
            }
            Err(failed) => Err(failed.value.1),
        }
    }
}
