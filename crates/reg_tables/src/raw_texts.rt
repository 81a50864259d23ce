//! The ids of all texts, and the texts in a range of ids, to validate a database before it is used.

ghost use Rattle.std.specs.Prelude.{pos};
ghost use Rattle.sqlite.specs.declared.types.Value.{Value};
ghost use Rattle.sqlite.specs.declared.types.Value.TheVariants.{Int};
ghost use Rattle.sqlite.specs.Order.{column};
ghost use Rattle.reg_tables.specs.Layout.{HasFiveTables};
ghost use Rattle.reg_tables.specs.Lookups.{ListsTable};
ghost use Rattle.reg_tables.specs.Listings.{ListsTextIds, ListsTextsBetween, RowParts, parts_of, entry_parts, text_entry};
ghost use Rattle.reg_tables.specs.Inside.ReadableRows.{IsReadableId, IsReadableText};
ghost use Rattle.reg_tables.specs.Reads.{CanBeRead};
ghost use Rattle.reg_tables.specs.Contents.{text_form};

use crate::autocommit::AutocommitConnection;
use crate::statement::{FromRow, list};
use sqlite::{Alter, Error, Row, params};
use std::alloc::Global;

impl FromRow for u32 {
    ghost Cells = { Value };

    ghost cells_read = { λ row. column row 0 };

    ghost cells = { λ id. Int (pos id) };

    ghost is_readable = { IsReadableId };

    fn read(row: &Row) -> Result<u32, Error> {
        row.get(0)
    }
}

/// A row of `texts`.
#[derive(Debug, Drop)]
pub struct RawText {
    pub id: u32,
    pub text: String,
}

impl FromRow for RawText {
    ghost Cells = { RowParts };

    ghost cells_read = { parts_of text_form };

    ghost cells = { λ line. entry_parts text_form (text_entry line) };

    ghost is_readable = { IsReadableText };

    fn read(row: &Row) -> Result<RawText, Error> {
        Ok(RawText {
            id: row.get(0)?,
            text: row.get(2)?,
        })
    }
}

/// The ids of all texts, in any order.
///
/// # Errors
///
/// A read error; others only if an id isn't a `u32`.
pub fn text_ids<S: Alter>(
    alloc: Global,
    db: &mut AutocommitConnection<S>,
) -> Result<Vec<u32>, Error>
    ensures { ListsTable db.old db.new result HasFiveTables CanBeRead ListsTextIds }
{
    list(alloc, db, "SELECT id FROM texts", &[])
}

/// The texts whose ids are at least `low` and at most `high`, in any order.
///
/// # Errors
///
/// A read error; others only if a row can't be read.
pub fn texts_between<S: Alter>(
    alloc: Global,
    db: &mut AutocommitConnection<S>,
    low: u32,
    high: u32,
) -> Result<Vec<RawText>, Error>
    ensures { ListsTable db.old db.new result HasFiveTables CanBeRead (ListsTextsBetween low high) }
{
    list(
        alloc,
        db,
        "SELECT rowid, id, text FROM texts WHERE id >= ?1 AND id <= ?2",
        params![low, high],
    )
}
