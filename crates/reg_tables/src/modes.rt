//! The own modes of subjects, which layout 2 adds. (Schema Registry API reference, Mode.)

ghost use Rattle.std.specs.Prelude.{◌≡◌, ◌⊎◌, ⊤, ℕ, List, None, Some, MatchOption, string_bytes};
ghost use Rattle.std.specs.FinMap.{get};
ghost use Rattle.sqlite.specs.Schema.{Schema};
ghost use Rattle.reg_tables.specs.Contents.{pair_form, TableName};
ghost use Rattle.reg_tables.specs.Lookups.{ListsTable};
ghost use Rattle.reg_tables.specs.Listings.{RowParts, parts_of, entry_parts, mode_entry, ListsModes};
ghost use Rattle.reg_tables.specs.Layout.{IsIndexedLayoutTwo, HasEightTables};
ghost use Rattle.reg_tables.specs.Reads.{CanBeReadIn};
ghost use Rattle.reg_tables.specs.Writing.{AppliesChange};
ghost use Rattle.reg_tables.specs.Changes.{with_mode, without_mode};
ghost use Rattle.reg_tables.specs.FailedCalls.{IsWriteFault, IsInsertFault};
ghost use Rattle.reg_tables.specs.Inside.ReadableRows.{IsReadablePair};
ghost use Rattle.reg_tables.specs.Lookups.{ReadsTable};

use crate::autocommit::AutocommitConnection;
use crate::keyed::{DeletableTable, InsertableTable, KeyedTable, delete, find, set};
use crate::statement::{FromRow, list};
use sqlite::{Alter, Error, Row, Transaction, params};
use std::alloc::Global;

struct Modes;

impl KeyedTable for Modes {
    type Found = String;

    ghost name = { TableName.Modes };

    ghost value_of = { string_bytes };

    fn find_sql() -> &'static str {
        "SELECT mode FROM modes WHERE subject = ?1"
    }
}

impl InsertableTable for Modes {
    ghost Written = { IsIndexedLayoutTwo };

    fn put_sql() -> &'static str {
        "INSERT INTO modes (subject, mode) VALUES (?1, ?2)"
    }
}

impl DeletableTable for Modes {
    fn drop_sql() -> &'static str {
        "DELETE FROM modes WHERE subject = ?1"
    }
}

/// A row of `modes`.
#[derive(Debug, Drop)]
pub struct RawMode {
    pub rowid: i64,
    pub subject: String,
    pub mode: String,
}

impl FromRow for RawMode {
    ghost Cells = { RowParts };

    ghost cells_read = { parts_of pair_form };

    ghost cells = { λ line. entry_parts pair_form (mode_entry line) };

    ghost is_readable = { IsReadablePair };

    fn read(row: &Row) -> Result<RawMode, Error> {
        Ok(RawMode {
            rowid: row.get(0)?,
            subject: row.get(1)?,
            mode: row.get(2)?,
        })
    }
}

/// Deletes the own mode of a subject. If the subject has none, nothing changes.
///
/// # Errors
///
/// A write error; others only if the schema isn't layout 2.
pub fn drop_mode<S: Alter>(tx: &mut Transaction<'_, S>, subject: &str) -> Result<(), Error>
    ensures { AppliesChange IsWriteFault S.Store tx.old tx.new result (without_mode subject.now) }
{
    delete::<S, Modes>(tx, params![subject])
}

/// Sets or replaces the own mode of a subject.
///
/// # Errors
///
/// An insert error; others only if the schema isn't layout 2.
pub fn set_mode<S: Alter>(
    tx: &mut Transaction<'_, S>,
    subject: &str,
    mode: &str,
) -> Result<(), Error>
    ensures { AppliesChange IsInsertFault S.Store tx.old tx.new result (with_mode subject.now mode.now) }
{
    set::<S, Modes>(tx, params![subject], params![subject, mode])
}

/// The own mode of a subject, or `None`.
///
/// # Errors
///
/// A read error; others only if the tables can't be read.
pub fn own_mode<S: Alter>(
    db: &mut AutocommitConnection<S>,
    subject: &str,
) -> Result<Option<String>, Error>
    ensures { ReadsTable TableName.Modes db.old db.new result (λ contents found.
        MatchOption found (get contents.modes subject.now ≡ None)
        (λ mode. get contents.modes subject.now ≡ Some (string_bytes mode))) }
{
    find::<S, Modes>(db, params![subject])
}

/// All rows of `modes`, in any order.
///
/// # Errors
///
/// A read error; others only if a row can't be read.
pub fn raw_modes<S: Alter>(
    alloc: Global,
    db: &mut AutocommitConnection<S>,
) -> Result<Vec<RawMode>, Error>
    ensures { ListsTable db.old db.new result HasEightTables (CanBeReadIn HasEightTables) ListsModes }
{
    list(alloc, db, "SELECT rowid, subject, mode FROM modes", &[])
}
