//! Compares a new schema with earlier ones, which are parsed from their texts.

ghost use Rattle.std.specs.Prelude.{◌≡◌, ◌↔◌, IfOk, IsTrue, List, None, Option, Some, false, map, option_map};
ghost use Rattle.avro_nodes.specs.Nodes.{NodeView, nodes_view};
ghost use Rattle.avro_schema.specs.DenotedNodes.{denoted_nodes};
ghost use Rattle.avro_schema.specs.Inside.ReaderResults.{Gives};
ghost use Rattle.schema_cache.specs.Answers.{found_schema};
ghost use Rattle.reg_core.specs.Compatibility.{Compatible};
ghost use Rattle.reg_core.specs.Inside.Comparisons.{is_admitted_in_view, view_schema};

use crate::compatibility::{is_compatible, named_versions};
use crate::decision::View;
use crate::level::Level;
use crate::row::Row;
use avro_nodes::OutOfMemory;
use avro_schema::{Schema, SchemaError};
use schema_cache::{CacheLookup, EvictionPolicy, SchemaCache};
use std::alloc::Global;

/// The schema that the text denotes, or `None` if it denotes none.
///
/// # Errors
///
/// `OutOfMemory` if an allocation for the schema fails.
pub fn schema_of(alloc: Global, text: &str) -> Result<Option<Schema>, OutOfMemory>
    ensures { IfOk result (λ found. option_map nodes_view found ≡ denoted_nodes text.now) }
{
    if_denoted(Schema::read(alloc, text))
}

/// Whether the new schema is compatible with the earlier one, in the level's directions. `text` is
/// the earlier schema's text, and `id` its id. If the text denotes no schema, the result is no.
///
/// The earlier schema is cached as by `SchemaCache::read`. A full cache evicts the least recently
/// used schemas, since a version is compared with those shortly before it.
///
/// # Errors
///
/// `OutOfMemory` if an allocation for the earlier schema or a comparison fails.
pub fn is_compatible_with(
    alloc: Global,
    level: Level,
    id: u32,
    text: &str,
    new: &Schema,
    cache: &mut SchemaCache,
) -> Result<bool, OutOfMemory>
    ensures schema { IfOk result (λ yes. (earlier : List NodeView) → denoted_nodes text.now ≡ Some earlier
        → IsTrue yes ↔ Compatible level earlier (nodes_view new.now)) }
    ensures none { IfOk result (λ yes. denoted_nodes text.now ≡ None → yes ≡ false) }
{
    let mut cache = Some(cache);
    let read = read_earlier(alloc, id, text, &mut cache, EvictionPolicy::EvictIfFull);
    match if_denoted(read)? {
        Some(found) => is_compatible(alloc, level, found.schema(), new),
        None => Ok(false),
    }
}

/// The parsed schema, or `None` if the text denotes none.
fn if_denoted<T>(read: Result<T, SchemaError>) -> Result<Option<T>, OutOfMemory>
    ensures { (shown : T → List NodeView) (denoted : Option (List NodeView)) → Gives shown read denoted
        → IfOk result (λ found. option_map shown found ≡ denoted) }
{
    match read {
        Ok(found) => Ok(Some(found)),
        Err(error) => match error {
            SchemaError::OutOfMemory => Err(OutOfMemory),
            _ => Ok(None),
        },
    }
}

/// The schema that the text of an id denotes, from the cache if it has it, else parsed.
fn read_earlier<'a>(
    alloc: Global,
    id: u32,
    text: &str,
    cache: &'a mut Option<&mut SchemaCache>,
    eviction_policy: EvictionPolicy,
) -> Result<CacheLookup<'a>, SchemaError>
    ensures { Gives (λ found. nodes_view (found_schema found)) result (denoted_nodes text.now) }
{
    match cache {
        Some(cache) => cache.read(alloc, id, text, eviction_policy),
        None => match Schema::read(alloc, text) {
            Ok(schema) => Ok(CacheLookup::Uncached(schema)),
            Err(error) => Err(error),
        },
    }
}

/// Whether the level admits the new schema after these versions, in order of number. It parses one
/// version's text at a time, and stops at the first version that isn't compatible. It also returns
/// `false` if the view lacks the text of a compared version, or that text denotes no schema.
///
/// # Errors
///
/// `OutOfMemory` if an allocation for a schema or a comparison fails.
pub fn is_admitted_in_view(
    alloc: Global,
    view: &View,
    level: Level,
    rows: &[&Row],
    new: &Schema,
    mut cache: Option<&mut SchemaCache>,
) -> Result<bool, OutOfMemory>
    ensures { IfOk result (λ yes. yes
        ≡ is_admitted_in_view view.now level (map (λ row. row.now) rows.now) (nodes_view new.now)) }
{
    let versions = named_versions(level, rows);
    let eviction_policy = eviction_policy(view, versions);
    for row in versions {
        let Some(earlier) = earlier_schema(alloc, view, row, &mut cache, eviction_policy)? else {
            return Ok(false);
        };
        if !is_compatible(alloc, level, earlier.schema(), new)? {
            return Ok(false);
        }
    }
    Ok(true)
}

/// What a full cache does while these versions are compared.
fn eviction_policy(view: &View, rows: &[&Row]) -> EvictionPolicy {
    let mut bytes = 0usize;
    for row in rows {
        if let Some(text) = view.texts.get(&row.id()) {
            bytes = bytes.saturating_add(text.len());
        }
    }
    EvictionPolicy::for_scan(rows.len(), bytes)
}

/// The version's schema, or `None` if the view has no text of the version or its text denotes none.
fn earlier_schema<'a>(
    alloc: Global,
    view: &View,
    row: &Row,
    cache: &'a mut Option<&mut SchemaCache>,
    eviction_policy: EvictionPolicy,
) -> Result<Option<CacheLookup<'a>>, OutOfMemory>
    ensures { IfOk result (λ earlier. option_map (λ found. nodes_view (found_schema found)) earlier
        ≡ view_schema view.now row.now) }
{
    match view.texts.get(&row.id()) {
        Some(text) => {
            if_denoted(read_earlier(alloc, row.id(), text.as_str(), cache, eviction_policy))
        }
        None => Ok(None),
    }
}
