//! The evidence of versions, which layout 2 adds: the level under which a version was checked when
//! it was registered, and the ids of the texts that it was checked against. A version that was
//! registered in layout 1 has none.

ghost use Rattle.std.specs.Prelude.{◌≡◌, None, IsSome, OnOk, IfErr, option_map, string_bytes, ◌⊎◌, pos, IfOk};
ghost use Rattle.std.specs.FinMap.{get};
ghost use Rattle.sqlite.specs.State.{HasCleanDisk};
ghost use Rattle.reg_tables.specs.Frames.{state_in, RunsInTransaction, conn_state, ReadsInAutocommit};
ghost use Rattle.reg_tables.specs.Layout.{IsIndexedLayoutTwo, HasEightTables};
ghost use Rattle.reg_tables.specs.Changes.{with_evidence, with_against};
ghost use Rattle.reg_tables.specs.Lookups.{ReadsTable, ListsTable};
ghost use Rattle.reg_tables.specs.FailedCalls.{IsInsertFault, IsFault, IsUnreadable};
ghost use Rattle.reg_tables.specs.Contents.{TableName, evidence_form, against_form};
ghost use Rattle.reg_tables.specs.Writing.{ChangesIf, ForHeldContents};
ghost use Rattle.sqlite.specs.declared.types.Value.{Value};
ghost use Rattle.sqlite.specs.declared.types.Value.TheVariants.{Int};
ghost use Rattle.sqlite.specs.Order.{column};
ghost use Rattle.reg_tables.specs.Listings.{RowParts, parts_of, entry_parts, evidence_entry, against_entry, ListsEvidence, ListsAgainstOf, HasAgainstRows};
ghost use Rattle.reg_tables.specs.Reads.{CanBeReadIn, HasTablesIn};
ghost use Rattle.reg_tables.specs.Inside.ReadableRows.{IsReadableEvidence, IsReadableAgainst, IsReadableCount};

use crate::autocommit::AutocommitConnection;
use crate::keyed::{InsertableTable, KeyedTable, find, put};
use crate::statement::{FromRow, first, list};
use sqlite::{Alter, Error, Row, Transaction, params};
use std::alloc::Global;

struct Evidence;

impl KeyedTable for Evidence {
    type Found = String;

    ghost name = { TableName.Evidence };

    ghost value_of = { string_bytes };

    fn find_sql() -> &'static str {
        "SELECT level FROM evidence WHERE subject = ?1 AND version = ?2"
    }
}

impl InsertableTable for Evidence {
    ghost Written = { IsIndexedLayoutTwo };

    fn put_sql() -> &'static str {
        "INSERT INTO evidence (subject, version, level) VALUES (?1, ?2, ?3)"
    }
}

struct Against;

impl KeyedTable for Against {
    type Found = u32;

    ghost name = { TableName.Against };

    ghost value_of = { λ id. id };

    fn find_sql() -> &'static str {
        "SELECT id FROM against WHERE subject = ?1 AND version = ?2 AND position = ?3"
    }
}

impl InsertableTable for Against {
    ghost Written = { IsIndexedLayoutTwo };

    fn put_sql() -> &'static str {
        "INSERT INTO against (subject, version, position, id) VALUES (?1, ?2, ?3, ?4)"
    }
}

/// A row of `evidence`.
#[derive(Debug, Drop)]
pub struct RawEvidence {
    pub rowid: i64,
    pub subject: String,
    pub version: u32,
    pub level: String,
}

/// A row of `against`.
#[derive(Debug, Drop)]
pub struct RawAgainst {
    pub rowid: i64,
    pub subject: String,
    pub version: u32,
    pub position: u32,
    pub id: u32,
}

impl FromRow for u64 {
    ghost Cells = { Value };

    ghost cells_read = { λ row. column row 0 };

    ghost cells = { λ count. Int (pos count) };

    ghost is_readable = { IsReadableCount };

    fn read(row: &Row) -> Result<u64, Error> {
        row.get(0)
    }
}

impl FromRow for RawEvidence {
    ghost Cells = { RowParts };

    ghost cells_read = { parts_of evidence_form };

    ghost cells = { λ line. entry_parts evidence_form (evidence_entry line) };

    ghost is_readable = { IsReadableEvidence };

    fn read(row: &Row) -> Result<RawEvidence, Error> {
        Ok(RawEvidence {
            rowid: row.get(0)?,
            subject: row.get(1)?,
            version: row.get(2)?,
            level: row.get(3)?,
        })
    }
}

impl FromRow for RawAgainst {
    ghost Cells = { RowParts };

    ghost cells_read = { parts_of against_form };

    ghost cells = { λ line. entry_parts against_form (against_entry line) };

    ghost is_readable = { IsReadableAgainst };

    fn read(row: &Row) -> Result<RawAgainst, Error> {
        Ok(RawAgainst {
            rowid: row.get(0)?,
            subject: row.get(1)?,
            version: row.get(2)?,
            position: row.get(3)?,
            id: row.get(4)?,
        })
    }
}

/// Inserts the level under which a version was checked. The caller must know that the version
/// exists and has no evidence; otherwise the INSERT fails.
///
/// # Errors
///
/// An insert error; others only if the version doesn't exist or has evidence, or the schema isn't
/// layout 2.
pub fn put_evidence<S: Alter>(
    tx: &mut Transaction<'_, S>,
    subject: &str,
    number: u32,
    level: &str,
) -> Result<(), Error>
    ensures frame { RunsInTransaction S.Store tx.old tx.new result }
    ensures put { HasCleanDisk (state_in S.Store tx.new) → OnOk result (ChangesIf (state_in S.Store tx.old) (state_in S.Store tx.new)
        (λ contents. get contents.evidence (subject.now, number) ≡ None) (with_evidence (subject.now, number) level.now)) }
    ensures fault { HasCleanDisk (state_in S.Store tx.new) → IfErr result (λ e. ForHeldContents (state_in S.Store tx.old) (λ contents.
        get contents.evidence (subject.now, number) ≡ None
        → IsSome (get contents.versions (subject.now, number))
        → IsInsertFault (state_in S.Store tx.old) (state_in S.Store tx.new) e)) }
{
    put::<S, Evidence>(tx, params![subject, number, level])
}

/// Inserts the id of a text that a version was checked against. The caller must know that the
/// version and the text exist and that the position is free; otherwise the INSERT fails.
///
/// # Errors
///
/// An insert error; others only if the version or the text doesn't exist, the position is taken, or
/// the schema isn't layout 2.
pub fn put_against<S: Alter>(
    tx: &mut Transaction<'_, S>,
    subject: &str,
    number: u32,
    position: u32,
    id: u32,
) -> Result<(), Error>
    ensures frame { RunsInTransaction S.Store tx.old tx.new result }
    ensures put { HasCleanDisk (state_in S.Store tx.new) → OnOk result (ChangesIf (state_in S.Store tx.old) (state_in S.Store tx.new)
        (λ contents. get contents.against ((subject.now, number), position) ≡ None) (with_against ((subject.now, number), position) id)) }
    ensures fault { HasCleanDisk (state_in S.Store tx.new) → IfErr result (λ e. ForHeldContents (state_in S.Store tx.old) (λ contents.
        get contents.against ((subject.now, number), position) ≡ None
        → IsSome (get contents.versions (subject.now, number)) → IsSome (get contents.texts id)
        → IsInsertFault (state_in S.Store tx.old) (state_in S.Store tx.new) e)) }
{
    put::<S, Against>(tx, params![subject, number, position, id])
}

/// Only the level of a version's evidence; `against_at` returns the ids. `None` if the version has
/// no evidence or doesn't exist.
///
/// # Errors
///
/// A read error; others only if the tables can't be read.
pub fn evidence_level_of<S: Alter>(
    db: &mut AutocommitConnection<S>,
    subject: &str,
    number: u32,
) -> Result<Option<String>, Error>
    ensures { ReadsTable TableName.Evidence db.old db.new result (λ contents found.
        option_map string_bytes found ≡ get contents.evidence (subject.now, number)) }
{
    find::<S, Evidence>(db, params![subject, number])
}

/// The id at a position among those that a version was checked against, or `None`.
///
/// # Errors
///
/// A read error; others only if the tables can't be read.
pub fn against_at<S: Alter>(
    db: &mut AutocommitConnection<S>,
    subject: &str,
    number: u32,
    position: u32,
) -> Result<Option<u32>, Error>
    ensures { ReadsTable TableName.Against db.old db.new result (λ contents found.
        found ≡ get contents.against ((subject.now, number), position)) }
{
    find::<S, Against>(db, params![subject, number, position])
}

/// All rows of `evidence`, in any order.
///
/// # Errors
///
/// A read error; others only if a row can't be read.
pub fn raw_evidence<S: Alter>(
    alloc: Global,
    db: &mut AutocommitConnection<S>,
) -> Result<Vec<RawEvidence>, Error>
    ensures { ListsTable db.old db.new result HasEightTables (CanBeReadIn HasEightTables) ListsEvidence }
{
    list(
        alloc,
        db,
        "SELECT rowid, subject, version, level FROM evidence",
        &[],
    )
}

/// The rows of `against` for a version, in any order.
///
/// # Errors
///
/// A read error; others only if a row can't be read.
pub fn against_of<S: Alter>(
    alloc: Global,
    db: &mut AutocommitConnection<S>,
    subject: &str,
    number: u32,
) -> Result<Vec<RawAgainst>, Error>
    ensures { ListsTable db.old db.new result HasEightTables (CanBeReadIn HasEightTables) (ListsAgainstOf (subject.now, number)) }
{
    list(
        alloc,
        db,
        "SELECT rowid, subject, version, position, id FROM against WHERE subject = ?1 AND version = ?2",
        params![subject, number],
    )
}

/// The number of rows of `against`, at most `i64::MAX`.
///
/// # Errors
///
/// A read error; others only if the tables can't be read.
pub fn against_count<S: Alter>(db: &mut AutocommitConnection<S>) -> Result<u64, Error>
    ensures frame { ReadsInAutocommit S.Store db.old.conn db.new.conn result }
    ensures counted { HasCleanDisk (conn_state db.new) → IfOk result (λ count.
        HasEightTables (conn_state db.old).now.schema
        → HasAgainstRows (conn_state db.old).now count) }
    ensures fault { HasCleanDisk (conn_state db.new) → IfErr result (λ e.
        CanBeReadIn HasEightTables (conn_state db.old)
        → IsFault (conn_state db.old) (conn_state db.new) e) }
    ensures fault_or_unreadable { HasCleanDisk (conn_state db.new) → IfErr result (λ e.
        HasTablesIn HasEightTables (conn_state db.old)
        → IsFault (conn_state db.old) (conn_state db.new) e ⊎ IsUnreadable e) }
{
    let found: Option<u64> = first(db, "SELECT count(*) FROM against", &[])?;
    Ok(found.unwrap_or(0))
}
