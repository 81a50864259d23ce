//! The own levels of subjects. (Schema Registry API reference, Config.)

ghost use Rattle.std.specs.Prelude.{◌≡◌, None, Some, MatchOption, string_bytes};
ghost use Rattle.std.specs.FinMap.{get};
ghost use Rattle.reg_tables.specs.Lookups.{ReadsTable, ListsTable};
ghost use Rattle.reg_tables.specs.Changes.{with_level, without_level};
ghost use Rattle.reg_tables.specs.Writing.{AppliesChange};
ghost use Rattle.reg_tables.specs.FailedCalls.{IsWriteFault, IsInsertFault};
ghost use Rattle.reg_tables.specs.Contents.{TableName, pair_form};
ghost use Rattle.reg_tables.specs.Layout.{IsIndexedLayoutTwo, HasFiveTables};
ghost use Rattle.reg_tables.specs.Listings.{RowParts, parts_of, entry_parts, level_entry, ListsLevels};
ghost use Rattle.reg_tables.specs.Inside.ReadableRows.{IsReadablePair};
ghost use Rattle.reg_tables.specs.Reads.{CanBeRead};

use crate::autocommit::AutocommitConnection;
use crate::keyed::{DeletableTable, InsertableTable, KeyedTable, delete, find, set};
use crate::statement::{FromRow, list};
use sqlite::{Alter, Error, Row, Transaction, params};
use std::alloc::Global;

struct Levels;

impl KeyedTable for Levels {
    type Found = String;

    ghost name = { TableName.Levels };

    ghost value_of = { string_bytes };

    fn find_sql() -> &'static str {
        "SELECT level FROM levels WHERE subject = ?1"
    }
}

impl InsertableTable for Levels {
    ghost Written = { IsIndexedLayoutTwo };

    fn put_sql() -> &'static str {
        "INSERT INTO levels (subject, level) VALUES (?1, ?2)"
    }
}

impl DeletableTable for Levels {
    fn drop_sql() -> &'static str {
        "DELETE FROM levels WHERE subject = ?1"
    }
}

/// A row of `levels`.
#[derive(Debug, Drop)]
pub struct RawLevel {
    pub rowid: i64,
    pub subject: String,
    pub level: String,
}

impl FromRow for RawLevel {
    ghost Cells = { RowParts };

    ghost cells_read = { parts_of pair_form };

    ghost cells = { λ line. entry_parts pair_form (level_entry line) };

    ghost is_readable = { IsReadablePair };

    fn read(row: &Row) -> Result<RawLevel, Error> {
        Ok(RawLevel {
            rowid: row.get(0)?,
            subject: row.get(1)?,
            level: row.get(2)?,
        })
    }
}

/// Deletes the own level of a subject. If the subject has none, nothing changes.
///
/// # Errors
///
/// A write error; others only if the schema isn't layout 2.
pub fn drop_level<S: Alter>(tx: &mut Transaction<'_, S>, subject: &str) -> Result<(), Error>
    ensures { AppliesChange IsWriteFault S.Store tx.old tx.new result (without_level subject.now) }
{
    delete::<S, Levels>(tx, params![subject])
}

/// Sets or replaces the own level of a subject.
///
/// # Errors
///
/// An insert error; others only if the schema isn't layout 2.
pub fn set_level<S: Alter>(
    tx: &mut Transaction<'_, S>,
    subject: &str,
    level: &str,
) -> Result<(), Error>
    ensures { AppliesChange IsInsertFault S.Store tx.old tx.new result (with_level subject.now level.now) }
{
    set::<S, Levels>(tx, params![subject], params![subject, level])
}

/// The own level of a subject, or `None`.
///
/// # Errors
///
/// A read error; others only if the tables can't be read.
pub fn own_level<S: Alter>(
    db: &mut AutocommitConnection<S>,
    subject: &str,
) -> Result<Option<String>, Error>
    ensures { ReadsTable TableName.Levels db.old db.new result (λ contents found.
        MatchOption found (get contents.levels subject.now ≡ None)
        (λ level. get contents.levels subject.now ≡ Some (string_bytes level))) }
{
    find::<S, Levels>(db, params![subject])
}

/// All rows of `levels`, in any order.
///
/// # Errors
///
/// A read error; others only if a row can't be read.
pub fn raw_levels<S: Alter>(
    alloc: Global,
    db: &mut AutocommitConnection<S>,
) -> Result<Vec<RawLevel>, Error>
    ensures { ListsTable db.old db.new result HasFiveTables CanBeRead ListsLevels }
{
    list(alloc, db, "SELECT rowid, subject, level FROM levels", &[])
}
