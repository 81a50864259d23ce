//! A cache of parsed schemas.

ghost use Rattle.std.specs.Prelude.{◌≡◌, ◌≢◌, ◌≤◌, ◌<◌, ◌↔◌, length, List, [], None, Some, IfOk, IfErr, IfSome, option_copied, nat_eq, IsTrue};
ghost use Rattle.std.specs.Map.{lookup};
ghost use Rattle.avro_nodes.specs.Nodes.{NodeView, nodes_view};
ghost use Rattle.avro_schema.specs.Texts.{TextDenotes};
ghost use Rattle.avro_schema.specs.DenotedNodes.{denoted_nodes};
ghost use Rattle.schema_cache.specs.Answers.{IsSchemaOf, IsTaken, found_schema};
ghost use Rattle.schema_cache.specs.Entries.{text_bytes, max_entries, max_cached_text, max_total_bytes, HasRoom, KeepsOthers};

use crate::cache_lookup::CacheLookup;
use crate::entry::Entry;
use crate::lru_entries::{LruEntries, MAX_ENTRIES, MAX_TOTAL_BYTES};
use avro_schema::{Schema, SchemaError};
use std::alloc::Global;
use std::marker::Model;

/// The maximum length of a cached text: 64 KiB.
const MAX_CACHED_TEXT: usize = 65536;

/// The policy of a cache that has no room for another schema.
#[derive(Clone, Copy, Debug, PartialEq, Eq)]
pub enum EvictionPolicy {
    /// Evict the least recently used schemas.
    EvictIfFull,
    /// Keep the cached schemas, and don't cache a new one.
    NeverEvict,
}

impl EvictionPolicy {
    /// Returns the policy for a scan that reads this many schemas, with this many bytes of texts.
    /// If either number exceeds the cache's limit, it is `NeverEvict`, since `EvictIfFull` could
    /// evict each schema before its next use. Otherwise it is `EvictIfFull`. Texts of more than
    /// 64 KiB count too, though they aren't cached.
    pub fn for_scan(schemas: usize, bytes: usize) -> EvictionPolicy
        ensures fits { schemas ≤ max_entries → bytes ≤ max_total_bytes
            → result ≡ EvictionPolicy.EvictIfFull }
        ensures many { max_entries < schemas → result ≡ EvictionPolicy.NeverEvict }
        ensures long { max_total_bytes < bytes → result ≡ EvictionPolicy.NeverEvict }
    {
        if schemas > MAX_ENTRIES || bytes > MAX_TOTAL_BYTES {
            EvictionPolicy::NeverEvict
        } else {
            EvictionPolicy::EvictIfFull
        }
    }
}

/// A cache of parsed schemas, found by the ids of their texts. It has at most 256 schemas. Their
/// texts have at most 64 KiB each and 384 KiB in all.
#[derive(Drop)]
pub struct SchemaCache {
    lru_entries: Option<LruEntries>,
}

impl Model for SchemaCache {
    ghost use Rattle.std.specs.Prelude.{ℕ, List};
    ghost use Rattle.std.specs.Coded.{coded_list, coded×, coded_ℕ};
    ghost use Rattle.schema_cache.specs.Entries.{EntryView, entry_code};
    ghost use Rattle.schema_cache.specs.Cached.{entries_in};

    ghost Value = { List (ℕ × EntryView) };

    ghost coded = { coded_list (coded× coded_ℕ entry_code) };

    ghost view = { λ m. entries_in m.lru_entries };
}

impl SchemaCache {
    /// Returns an empty cache. It allocates nothing before the first schema.
    pub fn new() -> SchemaCache
        ensures { result ≡ [] }
    {
        SchemaCache { lru_entries: None }
    }

    /// Returns the number of cached schemas, and the total length in bytes of the texts that they were
    /// cached with. These needn't be identity texts.
    pub fn len_and_bytes(&self) -> (usize, usize)
        ensures schemas { result.0 ≡ length self.now }
        ensures bytes { result.1 ≡ text_bytes self.now }
        ensures few { result.0 ≤ max_entries }
        ensures small { result.1 ≤ max_total_bytes }
    {
        match &self.lru_entries {
            Some(lru_entries) => lru_entries.len_and_bytes(),
            None => (0, 0),
        }
    }

    /// If a schema is cached under the id with this text, returns it and makes it the most recently
    /// used. Otherwise parses the text as `Schema::read` does, and caches the schema in place of an
    /// earlier one of the id. A text of more than 64 KiB isn't cached. Nor is any if the policy is
    /// `NeverEvict` and there is no room, or if an allocation fails. No clause says which schemas are
    /// cached.
    ///
    /// # Errors
    ///
    /// The errors of `Schema::read`.
    pub fn read(
        &mut self,
        alloc: Global,
        id: u32,
        text: &str,
        eviction_policy: EvictionPolicy,
    ) -> Result<CacheLookup<'_>, SchemaError>
        ensures ok { IfOk result (λ found. TextDenotes text.now (nodes_view (found_schema found))) }
        // a text denotes at most one schema
        ensures unique { IfOk result (λ found. (nodes : List NodeView) → TextDenotes text.now nodes
            → nodes ≡ nodes_view (found_schema found)) }
        ensures err { IfErr result (λ e. e ≢ SchemaError.OutOfMemory
            → (nodes : List NodeView) → ¬ TextDenotes text.now nodes) }
    {
        match self.load(alloc, id, text, eviction_policy) {
            Ok(Some(schema)) => Ok(CacheLookup::Uncached(schema)),
            Ok(None) => match self.entry(id) {
                Some(entry) => Ok(CacheLookup::Cached(entry.schema())),
                None => unreachable!(),
            },
            Err(e) => Err(e),
        }
    }

    /// Caches a schema that the text denotes, as `read` does after it has parsed the text. Drops
    /// the schema if `read` wouldn't cache it. If the policy is `NeverEvict`, the other ids keep
    /// their schemas.
    pub fn put(
        &mut self,
        alloc: Global,
        id: u32,
        text: &str,
        schema: Schema,
        eviction_policy: EvictionPolicy,
    )
        requires { denoted_nodes text.now ≡ Some (nodes_view schema) }
        ensures { eviction_policy ≡ EvictionPolicy.NeverEvict → KeepsOthers id self.old self.new }
    {
        let _unremembered = self.insert(alloc, id, text, schema, eviction_policy);
    }

    /// If a schema is cached under the id with this text, removes and returns it. Otherwise returns
    /// `None`, and the cache is unchanged.
    pub fn take(&mut self, id: u32, text: &str) -> Option<Schema>
        ensures denotes { IfSome result (λ schema. denoted_nodes text.now ≡ Some (nodes_view schema)) }
        ensures taken { IsTaken id text.now self.old self.new result }
    {
        if !self.is_cached(id, text) {
            return None;
        }
        match &mut self.lru_entries {
            Some(lru_entries) => Some(lru_entries.remove(id)?.into_schema()),
            None => None,
        }
    }

    /// If the id has an entry with this text, makes it the most recently used. Otherwise parses the
    /// text, and caches the schema as `insert` does. Returns `None` if the schema is in the cache
    /// now, otherwise the schema.
    fn load(
        &mut self,
        alloc: Global,
        id: u32,
        text: &str,
        eviction_policy: EvictionPolicy,
    ) -> Result<Option<Schema>, SchemaError>
        ensures ok { IfOk result (λ read. IsSchemaOf text.now read (lookup (nat_eq id) self.new)) }
        ensures err { IfErr result (λ e. e ≢ SchemaError.OutOfMemory
            → (nodes : List NodeView) → ¬ TextDenotes text.now nodes) }
    {
        if self.is_cached(id, text) {
            self.promote(id);
            return Ok(None);
        }
        match Schema::read(alloc, text) {
            Ok(schema) => Ok(self.insert(alloc, id, text, schema, eviction_policy)),
            Err(e) => Err(e),
        }
    }

    /// Returns the entry of the id.
    fn entry(&self, id: u32) -> Option<&Entry>
        ensures { option_copied result ≡ lookup (nat_eq id) self.now }
    {
        match &self.lru_entries {
            Some(lru_entries) => lru_entries.get(id),
            None => None,
        }
    }

    /// Whether the id has an entry with this text.
    fn is_cached(&self, id: u32, text: &str) -> bool
        ensures { IsTrue result ↔ IsSchemaOf text.now None (lookup (nat_eq id) self.now) }
    {
        match self.entry(id) {
            Some(entry) => entry.text() == text,
            None => false,
        }
    }

    /// Makes the entry of the id the most recently used.
    fn promote(&mut self, id: u32)
        ensures { lookup (nat_eq id) self.new ≡ lookup (nat_eq id) self.old }
    {
        if let Some(lru_entries) = &mut self.lru_entries {
            lru_entries.promote(id);
        }
    }

    /// Caches the schema of the text and returns `None`. If `may_cache` is false for the text, or if
    /// an allocation fails, returns the schema.
    fn insert(
        &mut self,
        alloc: Global,
        id: u32,
        text: &str,
        schema: Schema,
        eviction_policy: EvictionPolicy,
    ) -> Option<Schema>
        requires { denoted_nodes text.now ≡ Some (nodes_view schema) }
        ensures schema { IsSchemaOf text.now result (lookup (nat_eq id) self.new) }
        ensures kept { eviction_policy ≡ EvictionPolicy.NeverEvict → KeepsOthers id self.old self.new }
    {
        if !self.may_cache(text.len(), eviction_policy) || !self.ensure_allocated(alloc) {
            return Some(schema);
        }
        let entry = match Entry::new(alloc, text, schema) {
            Ok(entry) => entry,
            Err(schema) => return Some(schema),
        };
        let Some(lru_entries) = &mut self.lru_entries else {
            return Some(entry.into_schema());
        };
        match lru_entries.add(id, entry) {
            Ok(()) => None,
            Err(entry) => Some(entry.into_schema()),
        }
    }

    /// Whether a text of this many bytes may be cached: it has at most 64 KiB, and if the policy is
    /// `NeverEvict`, there is room for one more entry.
    fn may_cache(&self, bytes: usize, eviction_policy: EvictionPolicy) -> bool
        ensures short { IsTrue result → bytes ≤ max_cached_text }
        ensures room { IsTrue result → eviction_policy ≡ EvictionPolicy.NeverEvict
            → HasRoom bytes self.now }
    {
        if bytes > MAX_CACHED_TEXT {
            return false;
        }
        match (eviction_policy, &self.lru_entries) {
            (EvictionPolicy::NeverEvict, Some(lru_entries)) => lru_entries.has_room(bytes),
            _ => true,
        }
    }

    /// Allocates the entries, unless they are allocated. Returns whether they are.
    fn ensure_allocated(&mut self, alloc: Global) -> bool
        ensures { self.new ≡ self.old }
    {
        if self.lru_entries.is_none() {
            match LruEntries::new(alloc) {
                Ok(lru_entries) => self.lru_entries = Some(lru_entries),
                Err(_) => return false,
            }
        }
        true
    }
}
