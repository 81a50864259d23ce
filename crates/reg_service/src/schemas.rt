//! Caches of parsed schemas.

ghost use Rattle.std.specs.Prelude.{◌≡◌, Some, IfOk, option_map, option_copied, option_and_then, string_bytes};
ghost use Rattle.avro_nodes.specs.Nodes.{nodes_view};
ghost use Rattle.avro_nodes.specs.Identity.{identity};
ghost use Rattle.avro_schema.specs.DenotedNodes.{denoted_nodes};
ghost use Rattle.reg_core.specs.Machine.{command_schema};

use avro_schema::Schema;
use reg_core::{Change, Command, OutOfMemory, schema_of};
use schema_cache::{EvictionPolicy, SchemaCache};
use std::alloc::Global;
use std::hash::{FoldHasher, Hasher};

/// The number of hashes of recently sent texts.
const RECENT_HASHES: usize = 256;

/// Two caches of parsed schemas: of versions by their id, and of texts that clients sent by the
/// text's hash. When a schema becomes a version, it goes from the second to the first. If a client
/// sends the text again, it is parsed again, and then both may have it.
#[derive(Drop)]
pub(crate) struct SchemaCaches {
    pub registered: SchemaCache,
    sent: SchemaCache,
    recent_hashes: [u32; RECENT_HASHES],
}

impl SchemaCaches {
    /// Empty caches. They allocate nothing before the first schema.
    pub fn new() -> SchemaCaches {
        SchemaCaches {
            registered: SchemaCache::new(),
            sent: SchemaCache::new(),
            recent_hashes: [0; RECENT_HASHES],
        }
    }

    /// The schema that the command sends. `None` if it sends none, or one that isn't supported, or
    /// if the text denotes no schema. A cached schema isn't parsed again: it leaves the cache, and
    /// `keep` stores it again. If a step before `keep` fails, the schema is dropped.
    pub fn take(&mut self, alloc: Global, command: &Command) -> Result<Option<Schema>, OutOfMemory>
        ensures { IfOk result (λ schema. option_map nodes_view schema ≡ command_schema command.now) }
    {
        let Some(text) = command.schema_text() else {
            return Ok(None);
        };
        let text = text.as_str();
        match self.sent.take(hash_of(text), text) {
            Some(schema) => Ok(Some(schema)),
            None => schema_of(alloc, text),
        }
    }

    /// Stores the schema that the command sent; `schema_identity` is its identity text. If the
    /// changes add a version with this schema, it is stored under the version's id, so the next
    /// version is compared without parsing this one. Otherwise it is stored under the hash of the
    /// sent text.
    pub fn keep(
        &mut self,
        alloc: Global,
        command: &Command,
        changes: &[Change],
        schema: Option<Schema>,
        schema_identity: Option<String>,
    )
        requires sent { option_map nodes_view schema ≡ command_schema command.now }
        requires schema_identity { option_map string_bytes schema_identity
            ≡ option_map identity (option_map nodes_view schema) }
    {
        let (Some(schema), Some(text), Some(schema_identity)) = (
            schema,
            command.schema_text(),
            schema_identity,
        ) else {
            return;
        };
        match id_added(changes) {
            Some(id) => {
                let text = schema_identity.as_str();
                self.registered
                    .put(alloc, id, text, schema, EvictionPolicy::EvictIfFull);
            }
            None => self.keep_sent(alloc, text.as_str(), schema),
        }
    }

    /// Stores the schema under the hash of the sent text. If the cache is full, a text that was
    /// sent recently evicts others, and the schema of any other text is dropped. A text counts as
    /// sent recently if `recent_hashes` has its hash. So a text that is sent once evicts nothing,
    /// unless another text had the same hash, or the hash is 0, the initial value. The new text may
    /// replace a cached text with an equal hash.
    fn keep_sent(&mut self, alloc: Global, text: &str, schema: Schema)
        requires { denoted_nodes text.now ≡ Some (nodes_view schema) }
    {
        let hash = hash_of(text);
        let slot = hash as usize % RECENT_HASHES;
        let eviction_policy = if self.recent_hashes[slot] == hash {
            EvictionPolicy::EvictIfFull
        } else {
            EvictionPolicy::NeverEvict
        };
        self.recent_hashes[slot] = hash;
        self.sent.put(alloc, hash, text, schema, eviction_policy);
    }
}

/// The id of the version that the changes add, or `None`.
fn id_added(changes: &[Change]) -> Option<u32> {
    changes.iter().find_map(|change| match change {
        Change::AddRow { row, .. } => Some(row.id()),
        _ => None,
    })
}

/// The cache's key of a text. Texts with equal hashes replace each other.
fn hash_of(text: &str) -> u32 {
    let mut hasher = FoldHasher::default();
    hasher.write(text.as_bytes());
    (hasher.finish() >> 32) as u32
}

/// The identity text of the schema, or `None` without a schema.
pub(crate) fn identity_text(
    alloc: Global,
    schema: Option<&Schema>,
) -> Result<Option<String>, OutOfMemory>
    ensures { IfOk result (λ text. option_map string_bytes text
        ≡ option_map identity (option_map nodes_view (option_copied schema.entry))) }
{
    match schema {
        Some(schema) => Ok(Some(schema.text(alloc)?)),
        None => Ok(None),
    }
}
