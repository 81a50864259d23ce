//! The versions of subjects, by subject and number.

ghost use Rattle.std.specs.Prelude.{[], ◌∷◌, ◌≡◌, ◌<◌, ◌^◌, None, Some, IsSome, OnOk, IfErr, MatchOption, Bool, length, IfOk, false};
ghost use Rattle.std.specs.FinMap.{get};
ghost use Rattle.sqlite.specs.Order.{column};
ghost use Rattle.reg_tables.specs.Frames.{state_in, RunsInTransaction};
ghost use Rattle.sqlite.specs.State.{HasCleanDisk};
ghost use Rattle.reg_tables.specs.Contents.{VersionEntryView, version_cells, TableName, flag_cell, version_form};
ghost use Rattle.reg_tables.specs.Lookups.{ReadsTable, ListsTable};
ghost use Rattle.reg_tables.specs.Changes.{without_version, with_version, marking_deleted};
ghost use Rattle.reg_tables.specs.Writing.{AppliesChange, ForHeldContents, ChangesIf};
ghost use Rattle.reg_tables.specs.FailedCalls.{IsWriteFault, IsInsertFault};
ghost use Rattle.reg_tables.specs.Entries.{version_entry_view};
ghost use Rattle.reg_tables.specs.Layout.{IsIndexedLayoutTwo, HasFiveTables};
ghost use Rattle.reg_tables.specs.Listings.{RowParts, parts_of, entry_parts, version_entry, ListsVersions};
ghost use Rattle.reg_tables.specs.Inside.ReadableRows.{IsReadableVersion};
ghost use Rattle.reg_tables.specs.Reads.{CanBeRead};
ghost use Rattle.reg_tables.specs.Inside.FailedLists.{IsReadingError};

use crate::autocommit::AutocommitConnection;
use crate::keyed::{InsertableTable, KeyedTable, find, put};
use crate::statement::{FromRow, list, run};
use sqlite::{Alter, Error, ErrorCode, Row, Transaction, params};
use std::alloc::Global;

/// A version under a given key: the id of its text, and whether it is marked as deleted.
#[derive(Debug, Clone, Copy)]
pub struct VersionEntry {
    pub id: u32,
    pub deleted: bool,
}

impl FromRow for VersionEntry {
    ghost cells_read = { λ row. column row 0 ∷ column row 1 ∷ [] };

    ghost cells = { λ entry. version_cells (version_entry_view entry) };

    ghost is_readable = { λ row. (version : VersionEntryView) × (row ≡ version_cells version) × (version.id < 2 ^ 32) };

    fn read(row: &Row) -> Result<VersionEntry, Error> {
        Ok(VersionEntry {
            id: row.get(0)?,
            deleted: flag_in(row, 1)?,
        })
    }
}

struct Versions;

impl KeyedTable for Versions {
    type Found = VersionEntry;

    ghost name = { TableName.Versions };

    ghost value_of = { version_entry_view };

    fn find_sql() -> &'static str {
        "SELECT id, deleted FROM versions WHERE subject = ?1 AND version = ?2"
    }
}

impl InsertableTable for Versions {
    ghost Written = { IsIndexedLayoutTwo };

    fn put_sql() -> &'static str {
        "INSERT INTO versions (subject, version, id, deleted) VALUES (?1, ?2, ?3, ?4)"
    }
}

/// A row of `versions`.
#[derive(Debug, Drop)]
pub struct RawVersion {
    pub rowid: i64,
    pub subject: String,
    pub version: u32,
    pub id: u32,
    pub deleted: bool,
}

impl FromRow for RawVersion {
    ghost Cells = { RowParts };

    ghost cells_read = { parts_of version_form };

    ghost cells = { λ line. entry_parts version_form (version_entry line) };

    ghost is_readable = { IsReadableVersion };

    fn read(row: &Row) -> Result<RawVersion, Error> {
        Ok(RawVersion {
            rowid: row.get(0)?,
            subject: row.get(1)?,
            version: row.get(2)?,
            id: row.get(3)?,
            deleted: flag_in(row, 4)?,
        })
    }
}

/// The flag in the column at this index: 0 is `false` and 1 is `true`. Any other value is an error.
pub(crate) fn flag_in(row: &Row, at: usize) -> Result<bool, Error>
    ensures ok { IfOk result (λ flag. column row.now at ≡ flag_cell flag) }
    ensures err { IfErr result (λ e. at < length row.now
        → (flag : Bool) → column row.now at ≡ flag_cell flag
        → e ≡ Error.SqliteFailure ErrorCode.OutOfMemory) }
    ensures named { IfErr result IsReadingError }
{
    let number: u32 = row.get(at)?;
    match number {
        0 => Ok(false),
        1 => Ok(true),
        _ => Err(Error::IntegralValueOutOfRange(at)),
    }
}

/// Inserts a version of a subject. The caller must know that its number is free and that its id has
/// a text; otherwise the INSERT fails.
///
/// # Errors
///
/// An insert error; others only if the number is taken, no text has the id, or the schema isn't
/// layout 2.
pub fn put_version<S: Alter>(
    tx: &mut Transaction<'_, S>,
    subject: &str,
    number: u32,
    id: u32,
    deleted: bool,
) -> Result<(), Error>
    ensures frame { RunsInTransaction S.Store tx.old tx.new result }
    ensures put { HasCleanDisk (state_in S.Store tx.new) → OnOk result (ChangesIf (state_in S.Store tx.old) (state_in S.Store tx.new)
        (λ contents. get contents.versions (subject.now, number) ≡ None)
        (with_version (subject.now, number) (record { id = id; deleted = deleted }))) }
    ensures fault { HasCleanDisk (state_in S.Store tx.new) → IfErr result (λ e.
        ForHeldContents (state_in S.Store tx.old) (λ contents.
        get contents.versions (subject.now, number) ≡ None → IsSome (get contents.texts id)
        → IsInsertFault (state_in S.Store tx.old) (state_in S.Store tx.new) e)) }
{
    put::<S, Versions>(tx, params![subject, number, id, deleted])
}

/// Deletes the version of a subject with this number, if it exists, and the version's evidence.
///
/// # Errors
///
/// A write error; others only if the schema isn't layout 2.
pub fn drop_version<S: Alter>(
    tx: &mut Transaction<'_, S>,
    subject: &str,
    number: u32,
) -> Result<(), Error>
    ensures { AppliesChange IsWriteFault S.Store tx.old tx.new result (without_version (subject.now, number)) }
{
    run(
        tx,
        "DELETE FROM versions WHERE subject = ?1 AND version = ?2",
        params![subject, number],
    )
}

/// Marks the version of a subject with this number as deleted, if it exists.
///
/// # Errors
///
/// An insert error; others only if the schema isn't layout 2.
pub fn mark_deleted<S: Alter>(
    tx: &mut Transaction<'_, S>,
    subject: &str,
    number: u32,
) -> Result<(), Error>
    ensures { AppliesChange IsInsertFault S.Store tx.old tx.new result (marking_deleted (subject.now, number)) }
{
    run(
        tx,
        "UPDATE versions SET deleted = 1 WHERE subject = ?1 AND version = ?2",
        params![subject, number],
    )
}

/// The version of a subject with this number, or `None`.
///
/// # Errors
///
/// A read error; others only if the tables can't be read.
pub fn version_of<S: Alter>(
    db: &mut AutocommitConnection<S>,
    subject: &str,
    number: u32,
) -> Result<Option<VersionEntry>, Error>
    ensures { ReadsTable TableName.Versions db.old db.new result (λ contents found.
        MatchOption found (get contents.versions (subject.now, number) ≡ None)
        (λ entry. get contents.versions (subject.now, number) ≡ Some (version_entry_view entry))) }
{
    find::<S, Versions>(db, params![subject, number])
}

/// All rows of `versions`, in any order.
///
/// # Errors
///
/// A read error; others only if a row can't be read.
pub fn raw_versions<S: Alter>(
    alloc: Global,
    db: &mut AutocommitConnection<S>,
) -> Result<Vec<RawVersion>, Error>
    ensures { ListsTable db.old db.new result HasFiveTables CanBeRead ListsVersions }
{
    list(
        alloc,
        db,
        "SELECT rowid, subject, version, id, deleted FROM versions",
        &[],
    )
}
