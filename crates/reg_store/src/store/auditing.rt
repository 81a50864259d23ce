//! Whether the stored evidence is true.

ghost use Rattle.std.specs.Prelude.{◌≡◌, ◌↔◌, List, All, None, IsTrue, option_map, option_and_then};
ghost use Rattle.std.specs.FinMap.{get};
ghost use Rattle.avro_nodes.specs.Nodes.{NodeView, nodes_view};
ghost use Rattle.reg_core.specs.Evidence.{Evidence, IsCompatibleWith};
ghost use Rattle.reg_core.specs.Registry.{schema_at};
ghost use Rattle.reg_core.specs.Stored.{HasTrueEvidence};
ghost use Rattle.reg_store.specs.Spells.{id_at};
ghost use Rattle.reg_store.specs.Stores.{ReadsStore};
ghost use Rattle.reg_store.specs.Inside.Auditing.{HasSchema, HasEvidence, IsTrueAt};
ghost use Rattle.reg_store.specs.Inside.Reads.{MayRead, Reads};

use crate::conn::Conn;
use crate::error::StoreError;
use crate::store::Store;
use crate::store::levels::parse_level;
use crate::store::next_rows::next_version;
use crate::store::texts::text_with_id;
use avro_schema::Schema;
use reg_core::{Level, Row, is_compatible_with, schema_of};
use reg_tables::{against_at, evidence_level_of};
use schema_cache::SchemaCache;
use sqlite::Alter;
use std::alloc::Global;

impl<S: Alter> Store<S> {
    /// Whether all stored evidence is true: each version's schema is compatible with the schemas
    /// that its evidence names, in the directions of its level. This includes soft-deleted
    /// versions. Versions without evidence pass, and those whose level is NONE.
    ///
    /// It keeps the two schemas of one comparison in memory, and a small cache of schemas.
    ///
    /// # Errors
    ///
    /// `Memory` or `Disk`, or `NotARegistry` if the tables no longer hold a registry. In each
    /// case nothing is changed.
    pub fn audit(&mut self) -> Result<bool, StoreError>
        ensures { ReadsStore self.old self.new result (λ was yes. IsTrue yes ↔ HasTrueEvidence was) }
    {
        if self.failed {
            return Err(StoreError::Disk);
        }
        let yes = all_evidence_true(self.alloc, &mut self.db);
        self.failed = matches!(yes, Err(StoreError::Disk));
        yes
    }
}

/// Whether the evidence of all versions is true.
fn all_evidence_true<S: Alter>(alloc: Global, db: &mut Conn<S>) -> Result<bool, StoreError>
    ensures { Reads db.old db.new result (λ was yes. IsTrue yes ↔ HasTrueEvidence was) }
{
    let mut cache = SchemaCache::new();
    let mut last = None;
    for _ in 0..u64::MAX {
        let Some(row) = next_version(db, last.as_ref())? else {
            return Ok(true);
        };
        if !evidence_is_true(alloc, db, &mut cache, &row)? {
            return Ok(false);
        }
        last = Some(row);
    }
    // No file has room for `u64::MAX` versions.
    Err(StoreError::Memory)
}

/// Whether the evidence of the version, if any, is true.
fn evidence_is_true<S: Alter>(
    alloc: Global,
    db: &mut Conn<S>,
    cache: &mut SchemaCache,
    row: &Row,
) -> Result<bool, StoreError>
    ensures { Reads db.old db.new result (λ was yes. (nodes : List NodeView)
        → HasSchema was row.now.1.id nodes → IsTrue yes ↔ IsTrueAt was row.now.0 nodes) }
{
    match evidence_level(db, row)? {
        None => Ok(true),
        // NONE requires no comparison.
        Some(Level::Off) => Ok(true),
        Some(level) => is_true_under(alloc, db, cache, row, level),
    }
}

/// Whether the version's schema is compatible with those that its evidence names, in the directions
/// of the level; `false` if the version's schema is missing.
fn is_true_under<S: Alter>(
    alloc: Global,
    db: &mut Conn<S>,
    cache: &mut SchemaCache,
    row: &Row,
    level: Level,
) -> Result<bool, StoreError>
    ensures { Reads db.old db.new result (λ was yes. (nodes : List NodeView) (one : Evidence)
        → HasSchema was row.now.1.id nodes → HasEvidence was row.now.0 one
        → IsTrue yes ↔ All (IsCompatibleWith was.registry.schemas level nodes) one.against) }
{
    match schema_with_id(alloc, db, row.id())? {
        None => Ok(false),
        Some(new) => is_compatible_with_all(alloc, db, cache, row, level, &new),
    }
}

/// Whether the new schema is compatible with those that the version's evidence names, in the
/// directions of the level.
fn is_compatible_with_all<S: Alter>(
    alloc: Global,
    db: &mut Conn<S>,
    cache: &mut SchemaCache,
    row: &Row,
    level: Level,
    new: &Schema,
) -> Result<bool, StoreError>
    ensures { MayRead db.old db.new result (λ was yes. (one : Evidence) → HasEvidence was row.now.0 one
        → IsTrue yes ↔ All (IsCompatibleWith was.registry.schemas level (nodes_view new.now)) one.against) }
{
    for index in 0..u32::MAX {
        let Some(id) = evidence_id(db, row, index + 1)? else {
            return Ok(true);
        };
        if !is_compatible_with_id(alloc, db, cache, level, id, new)? {
            return Ok(false);
        }
    }
    Ok(true)
}

/// Whether the new schema is compatible with the schema of the id, in the directions of the level;
/// `false` if the id has no schema.
fn is_compatible_with_id<S: Alter>(
    alloc: Global,
    db: &mut Conn<S>,
    cache: &mut SchemaCache,
    level: Level,
    id: u32,
    new: &Schema,
) -> Result<bool, StoreError>
    ensures { Reads db.old db.new result (λ was yes.
        IsTrue yes ↔ IsCompatibleWith was.registry.schemas level (nodes_view new.now) id) }
{
    match text_with_id(db, id)? {
        None => Ok(false),
        Some(text) => Ok(is_compatible_with(alloc, level, id, text.as_str(), new, cache)?),
    }
}

/// The schema of the id, or `None`.
fn schema_with_id<S: Alter>(
    alloc: Global,
    db: &mut Conn<S>,
    id: u32,
) -> Result<Option<Schema>, StoreError>
    ensures { Reads db.old db.new result (λ was found.
        option_map nodes_view found ≡ schema_at was.registry.schemas id) }
{
    match text_with_id(db, id)? {
        None => Ok(None),
        Some(text) => Ok(schema_of(alloc, text.as_str())?),
    }
}

/// The level of the version's evidence, or `None` without evidence.
fn evidence_level<S: Alter>(db: &mut Conn<S>, row: &Row) -> Result<Option<Level>, StoreError>
    ensures { Reads db.old db.new result (λ was found.
        found ≡ option_map (λ one. one.level) (get was.evidence row.now.0)) }
{
    match evidence_level_of(&mut db.idle, row.subject().as_str(), row.version())? {
        None => Ok(None),
        Some(text) => Ok(Some(parse_level(text.as_str())?)),
    }
}

/// The id at the position, counted from 1, in the version's evidence, or `None`.
fn evidence_id<S: Alter>(
    db: &mut Conn<S>,
    row: &Row,
    position: u32,
) -> Result<Option<u32>, StoreError>
    ensures { Reads db.old db.new result (λ was found.
        found ≡ option_and_then (id_at position) (get was.evidence row.now.0)) }
{
    let subject = row.subject().as_str();
    Ok(against_at(&mut db.idle, subject, row.version(), position)?)
}
