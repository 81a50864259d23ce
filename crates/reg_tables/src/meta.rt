//! The table `meta`: the format, the layout's number, the global level and, in layout 2, the global
//! mode.

ghost use Rattle.std.specs.Prelude.{◌≡◌, ◌+◌, ℕ, [], ◌∷◌, None, Some, IfErr, MatchOption, codes, string_bytes, ◌⊎◌, IfOk};
ghost use Rattle.std.specs.FinMap.{get};
ghost use Rattle.reg_tables.specs.Frames.{conn_state};
ghost use Rattle.sqlite.specs.State.{HasCleanDisk};
ghost use Rattle.sqlite.specs.declared.types.Value.TheVariants.{Text};
ghost use Rattle.reg_tables.specs.Layout.{meta, TakesMeta, HasFiveTables};
ghost use Rattle.reg_tables.specs.Lookups.{ReadsTable, ListsTable};
ghost use Rattle.reg_tables.specs.Rooms.{HasRoom, CanBeStored};
ghost use Rattle.reg_tables.specs.Contents.{Contents, HoldsLayoutOne, TableName, pair_form};
ghost use Rattle.reg_tables.specs.Changes.{with_meta, with_global, with_global_mode, marked_layout_two};
ghost use Rattle.reg_tables.specs.Writing.{AppliesChange, Transforms};
ghost use Rattle.reg_tables.specs.FailedCalls.{IsWriteFault, IsInsertFault, IsFault, IsRefused, IsUnreadable};
ghost use Rattle.reg_tables.specs.Listings.{RowParts, parts_of, entry_parts, meta_entry, ListsMeta};
ghost use Rattle.reg_tables.specs.Inside.ReadableRows.{IsReadablePair};
ghost use Rattle.reg_tables.specs.Reads.{CanReadMeta};
ghost use Rattle.reg_tables.specs.Selects.{ReadsMeta};

use crate::autocommit::AutocommitConnection;
use crate::keyed::{DeletableTable, InsertableTable, KeyedTable, find, put, set};
use crate::statement::{FromRow, list};
use sqlite::{Alter, Error, Row, Transaction, params};
use std::alloc::Global;

struct Meta;

impl KeyedTable for Meta {
    type Found = String;

    ghost name = { TableName.Meta };

    ghost value_of = { string_bytes };

    fn find_sql() -> &'static str {
        "SELECT value FROM meta WHERE name = ?1"
    }
}

impl InsertableTable for Meta {
    ghost Written = { TakesMeta };

    fn put_sql() -> &'static str {
        "INSERT INTO meta (name, value) VALUES (?1, ?2)"
    }
}

impl DeletableTable for Meta {
    fn drop_sql() -> &'static str {
        "DELETE FROM meta WHERE name = ?1"
    }
}

/// A row of `meta`.
#[derive(Debug, Drop)]
pub struct RawMeta {
    pub rowid: i64,
    pub name: String,
    pub value: String,
}

impl FromRow for RawMeta {
    ghost Cells = { RowParts };

    ghost cells_read = { parts_of pair_form };

    ghost cells = { λ line. entry_parts pair_form (meta_entry line) };

    ghost is_readable = { IsReadablePair };

    fn read(row: &Row) -> Result<RawMeta, Error> {
        Ok(RawMeta {
            rowid: row.get(0)?,
            name: row.get(1)?,
            value: row.get(2)?,
        })
    }
}

/// Inserts a value under a free name, in layout 1. If the name is taken, the INSERT fails.
pub(crate) fn put_meta<S: Alter>(
    tx: &mut Transaction<'_, S>,
    name: &str,
    value: &str,
) -> Result<(), Error>
    ensures { Transforms IsWriteFault S.Store tx.old tx.new result
        (λ (about : Contents × ℕ) db. HoldsLayoutOne db about.0 × (get about.0.meta name.now ≡ None)
        × HasRoom (db.trees meta.tree) (about.1 + 1) × CanBeStored meta (Text name.now ∷ Text value.now ∷ []))
        (λ about db. HoldsLayoutOne db (with_meta name.now value.now about.0) × HasRoom (db.trees meta.tree) about.1) }
{
    put::<S, Meta>(tx, params![name, value])
}

/// Sets or replaces the value of a name.
fn set_meta<S: Alter>(tx: &mut Transaction<'_, S>, name: &str, value: &str) -> Result<(), Error>
    ensures { AppliesChange IsInsertFault S.Store tx.old tx.new result (with_meta name.now value.now) }
{
    set::<S, Meta>(tx, params![name], params![name, value])
}

/// Sets or replaces the global level.
///
/// # Errors
///
/// An insert error; others only if the schema isn't layout 2.
pub fn set_global<S: Alter>(tx: &mut Transaction<'_, S>, level: &str) -> Result<(), Error>
    ensures { AppliesChange IsInsertFault S.Store tx.old tx.new result (with_global level.now) }
{
    set_meta(tx, "global", level)
}

/// Sets or replaces the global mode.
///
/// # Errors
///
/// An insert error; others only if the schema isn't layout 2.
pub fn set_global_mode<S: Alter>(tx: &mut Transaction<'_, S>, mode: &str) -> Result<(), Error>
    ensures { AppliesChange IsInsertFault S.Store tx.old tx.new result (with_global_mode mode.now) }
{
    set_meta(tx, "mode", mode)
}

/// Writes layout 2 and the global mode READWRITE to `meta`, after `add_tables` has made the tables.
///
/// # Errors
///
/// An insert error; others only if the schema isn't layout 2.
pub fn mark_layout_two<S: Alter>(tx: &mut Transaction<'_, S>) -> Result<(), Error>
    ensures { AppliesChange IsInsertFault S.Store tx.old tx.new result marked_layout_two }
{
    set_meta(tx, "layout", "2")?;
    set_global_mode(tx, "READWRITE")
}

/// The global level, or `None`.
///
/// # Errors
///
/// A read error; others only if the tables can't be read.
pub fn global_level<S: Alter>(db: &mut AutocommitConnection<S>) -> Result<Option<String>, Error>
    ensures { ReadsTable TableName.Meta db.old db.new result (λ contents found.
        MatchOption found (get contents.meta (codes "global") ≡ None)
        (λ level. get contents.meta (codes "global") ≡ Some (string_bytes level))) }
{
    find::<S, Meta>(db, params!["global"])
}

/// All rows of `meta`, in any order. In a database that doesn't begin with the five tables, `meta`
/// may be any table or view.
///
/// # Errors
///
/// A read error; others only if SQLite rejects the statement or a row can't be read.
pub fn raw_meta<S: Alter>(
    alloc: Global,
    db: &mut AutocommitConnection<S>,
) -> Result<Vec<RawMeta>, Error>
    ensures lists { ListsTable db.old db.new result HasFiveTables CanReadMeta ListsMeta }
    ensures reads { HasCleanDisk (conn_state db.new)
        → IfOk result (λ lines. ReadsMeta (conn_state db.old).now lines.items) }
    ensures fails { HasCleanDisk (conn_state db.new) → IfErr result (λ e.
        IsFault (conn_state db.old) (conn_state db.new) e ⊎ (IsRefused e ⊎ IsUnreadable e)) }
{
    list(alloc, db, "SELECT rowid, name, value FROM meta", &[])
}
