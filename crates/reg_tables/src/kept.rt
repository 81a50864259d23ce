//! The kept replies, by retry key.

ghost use Rattle.std.specs.Prelude.{◌≡◌, None, Some, OnOk, IfErr, MatchOption, [], ◌∷◌};
ghost use Rattle.std.specs.FinMap.{get};
ghost use Rattle.sqlite.specs.Order.{column};
ghost use Rattle.reg_tables.specs.Frames.{state_in, RunsInTransaction};
ghost use Rattle.sqlite.specs.State.{HasCleanDisk};
ghost use Rattle.reg_tables.specs.Contents.{KeptReplyView, kept_cells, IsReadableReply, TableName, kept_form};
ghost use Rattle.reg_tables.specs.Lookups.{ReadsTable, ListsTable};
ghost use Rattle.reg_tables.specs.Changes.{with_kept};
ghost use Rattle.reg_tables.specs.Writing.{ForHeldContents, ChangesIf};
ghost use Rattle.reg_tables.specs.FailedCalls.{IsInsertFault};
ghost use Rattle.reg_tables.specs.KeptReplyViews.{kept_reply_view};
ghost use Rattle.reg_tables.specs.Layout.{IsIndexedLayoutTwo, HasFiveTables};
ghost use Rattle.reg_tables.specs.Listings.{RowParts, parts_of, entry_parts, kept_entry, ListsKept};
ghost use Rattle.reg_tables.specs.Inside.ReadableRows.{IsReadableKept};
ghost use Rattle.reg_tables.specs.Reads.{CanBeRead};

use crate::autocommit::AutocommitConnection;
use crate::keyed::{InsertableTable, KeyedTable, find, put};
use crate::statement::{FromRow, list};
use sqlite::{Alter, Error, Row, Transaction, params};
use std::alloc::Global;

/// A kept reply without its retry key: the text of a command, and the status and body of its reply.
#[derive(Debug, Drop)]
pub struct KeptReply {
    pub command: String,
    /// An HTTP status code. (RFC 9110, section 15.)
    pub status: u32,
    pub body: String,
}

impl FromRow for KeptReply {
    ghost cells_read = { λ row. column row 0 ∷ column row 1 ∷ column row 2 ∷ [] };

    ghost cells = { λ reply. kept_cells (kept_reply_view reply) };

    ghost is_readable = { λ row. (reply : KeptReplyView) × (row ≡ kept_cells reply) × IsReadableReply reply };

    fn read(row: &Row) -> Result<KeptReply, Error> {
        Ok(KeptReply {
            command: row.get(0)?,
            status: row.get(1)?,
            body: row.get(2)?,
        })
    }
}

struct Kept;

impl KeyedTable for Kept {
    type Found = KeptReply;

    ghost name = { TableName.Kept };

    ghost value_of = { kept_reply_view };

    fn find_sql() -> &'static str {
        "SELECT command, status, body FROM kept WHERE key = ?1"
    }
}

impl InsertableTable for Kept {
    ghost Written = { IsIndexedLayoutTwo };

    fn put_sql() -> &'static str {
        "INSERT INTO kept (key, command, status, body) VALUES (?1, ?2, ?3, ?4)"
    }
}

/// A row of `kept`.
#[derive(Debug, Drop)]
pub struct RawKept {
    pub rowid: i64,
    pub key: String,
    pub reply: KeptReply,
}

impl FromRow for RawKept {
    ghost Cells = { RowParts };

    ghost cells_read = { parts_of kept_form };

    ghost cells = { λ line. entry_parts kept_form (kept_entry line) };

    ghost is_readable = { IsReadableKept };

    fn read(row: &Row) -> Result<RawKept, Error> {
        Ok(RawKept {
            rowid: row.get(0)?,
            key: row.get(1)?,
            reply: KeptReply {
                command: row.get(2)?,
                status: row.get(3)?,
                body: row.get(4)?,
            },
        })
    }
}

/// Inserts a command's text and its reply under a retry key. The caller must know that the key has
/// no reply; otherwise the INSERT fails.
///
/// # Errors
///
/// An insert error; others only if the key has a reply or the schema isn't layout 2.
pub fn keep_reply<S: Alter>(
    tx: &mut Transaction<'_, S>,
    key: &str,
    command: &str,
    status: u32,
    body: &str,
) -> Result<(), Error>
    ensures frame { RunsInTransaction S.Store tx.old tx.new result }
    ensures put { HasCleanDisk (state_in S.Store tx.new) → OnOk result (ChangesIf (state_in S.Store tx.old) (state_in S.Store tx.new)
        (λ contents. get contents.kept key.now ≡ None)
        (with_kept key.now (record { command = command.now; status = status; body = body.now }))) }
    ensures fault { HasCleanDisk (state_in S.Store tx.new) → IfErr result (λ e.
        ForHeldContents (state_in S.Store tx.old) (λ contents.
        get contents.kept key.now ≡ None → IsInsertFault (state_in S.Store tx.old) (state_in S.Store tx.new) e)) }
{
    put::<S, Kept>(tx, params![key, command, status, body])
}

/// The kept reply of a retry key, or `None`.
///
/// # Errors
///
/// A read error; others only if the tables can't be read.
pub fn kept_reply<S: Alter>(
    db: &mut AutocommitConnection<S>,
    key: &str,
) -> Result<Option<KeptReply>, Error>
    ensures { ReadsTable TableName.Kept db.old db.new result (λ contents found.
        MatchOption found (get contents.kept key.now ≡ None)
        (λ reply. get contents.kept key.now ≡ Some (kept_reply_view reply))) }
{
    find::<S, Kept>(db, params![key])
}

/// All rows of `kept`, in any order.
///
/// # Errors
///
/// A read error; others only if a row can't be read.
pub fn raw_kept<S: Alter>(
    alloc: Global,
    db: &mut AutocommitConnection<S>,
) -> Result<Vec<RawKept>, Error>
    ensures { ListsTable db.old db.new result HasFiveTables CanBeRead ListsKept }
{
    list(
        alloc,
        db,
        "SELECT rowid, key, command, status, body FROM kept",
        &[],
    )
}
