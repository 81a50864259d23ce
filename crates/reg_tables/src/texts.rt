//! The texts of schemas, by their ids.

ghost use Rattle.std.specs.Prelude.{⊤, List, ◌≡◌, ◌≢◌, ◌≤◌, ◌<◌, ◌^◌, ℕ, None, Some, IsSome, OnOk, IfOk, IfErr, MatchOption, string_bytes};
ghost use Rattle.std.specs.FinMap.{get};
ghost use Rattle.reg_tables.specs.Frames.{state_in, RunsInTransaction};
ghost use Rattle.sqlite.specs.State.{HasCleanDisk};
ghost use Rattle.reg_tables.specs.Contents.{number_cells, TableName};
ghost use Rattle.reg_tables.specs.Lookups.{ReadsTable};
ghost use Rattle.reg_tables.specs.Changes.{with_text};
ghost use Rattle.reg_tables.specs.Writing.{ForHeldContents, ChangesIf};
ghost use Rattle.reg_tables.specs.FailedCalls.{IsPutFault};

use crate::autocommit::AutocommitConnection;
use crate::keyed::{KeyedTable, find};
use crate::statement::{ask, run};
use sqlite::{Alter, Error, ErrorCode, Row, Transaction, params};

struct Texts;

impl KeyedTable for Texts {
    type Found = String;

    ghost name = { TableName.Texts };

    ghost value_of = { string_bytes };

    fn find_sql() -> &'static str {
        "SELECT text FROM texts WHERE id = ?1"
    }
}

/// Inserts a text under an id. The caller must know that the id is free and that no other id has
/// the text; otherwise the INSERT fails.
///
/// # Errors
///
/// A write error, or `TooBig` for a row that is too large; others only if the id or the text is
/// taken, or the schema isn't layout 2.
pub fn put_text<S: Alter>(tx: &mut Transaction<'_, S>, id: u32, text: &str) -> Result<(), Error>
    ensures frame { RunsInTransaction S.Store tx.old tx.new result }
    ensures put { HasCleanDisk (state_in S.Store tx.new) → OnOk result (ChangesIf (state_in S.Store tx.old) (state_in S.Store tx.new)
        (λ contents. get contents.texts id ≡ None) (with_text id text.now)) }
    ensures fault { HasCleanDisk (state_in S.Store tx.new) → IfErr result (λ e.
        ForHeldContents (state_in S.Store tx.old) (λ contents. get contents.texts id ≡ None
        → ((other : ℕ) → get contents.texts other ≢ Some text.now)
        → IsPutFault (state_in S.Store tx.old) (state_in S.Store tx.new) e)) }
{
    run(
        tx,
        "INSERT INTO texts (id, text) VALUES (?1, ?2)",
        params![id, text],
    )
}

/// The text of an id, or `None`.
///
/// # Errors
///
/// A read error; others only if the tables can't be read.
pub fn text_of<S: Alter>(db: &mut AutocommitConnection<S>, id: u32) -> Result<Option<String>, Error>
    ensures { ReadsTable TableName.Texts db.old db.new result (λ contents found.
        MatchOption found (get contents.texts id ≡ None)
        (λ text. get contents.texts id ≡ Some (string_bytes text))) }
{
    find::<S, Texts>(db, params![id])
}

/// The number in the only column of a row.
fn number_in(row: &Row) -> Result<u32, Error>
    ensures ok { IfOk result (λ number. (n : ℕ) → row.now ≡ number_cells n → n ≡ number) }
    ensures err { IfErr result (λ e. (n : ℕ) → row.now ≡ number_cells n → n < 2 ^ 32
        → e ≡ Error.SqliteFailure ErrorCode.OutOfMemory) }
{
    row.get(0)
}

/// The id of a text, or `None`.
///
/// # Errors
///
/// A read error; others only if the tables can't be read.
pub fn id_of<S: Alter>(db: &mut AutocommitConnection<S>, text: &str) -> Result<Option<u32>, Error>
    ensures { ReadsTable TableName.Texts db.old db.new result (λ contents found.
        MatchOption found ((id : ℕ) → get contents.texts id ≢ Some text.now)
        (λ id. get contents.texts id ≡ Some text.now)) }
{
    let rows = ask(db, "SELECT id FROM texts WHERE text = ?1", params![text])?;
    match rows.first() {
        None => Ok(None),
        Some(row) => Ok(Some(number_in(row)?)),
    }
}

/// The greatest id that a text has, or `None` if there is no text.
///
/// # Errors
///
/// A read error; others only if the tables can't be read.
pub fn last_id<S: Alter>(db: &mut AutocommitConnection<S>) -> Result<Option<u32>, Error>
    ensures { ReadsTable TableName.Texts db.old db.new result (λ contents found.
        MatchOption found ((id : ℕ) → get contents.texts id ≡ None)
        (λ id. IsSome (get contents.texts id)
        × ((other : ℕ) → IsSome (get contents.texts other) → other ≤ id))) }
{
    let rows = ask(db, "SELECT id FROM texts ORDER BY id DESC LIMIT 1", &[])?;
    match rows.first() {
        None => Ok(None),
        Some(row) => Ok(Some(number_in(row)?)),
    }
}
