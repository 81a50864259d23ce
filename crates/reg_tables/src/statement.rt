//! One statement: a write in a transaction, or a query in its own transaction.

ghost use Rattle.std.specs.Prelude.{◌≡◌, ◌⊎◌, ◌≤◌, ℕ, Ok, Err, IfErr, OnOk, IfOk, List, map, slice_get, option_map, All, false};
ghost use Rattle.sqlite.specs.Order.{Row as SqlRow};
ghost use Rattle.sqlite.specs.Held.{Held, state};
ghost use Rattle.reg_tables.specs.Frames.{after_begin, conn_state, state_in, RunsInTransaction, ReadsInAutocommit};
ghost use Rattle.sqlite.specs.State.{HasCleanDisk, ExecutesInside, Shown, FailsToQuery, IsTooLate};
ghost use Rattle.sqlite.specs.Values.{bound};
ghost use Rattle.reg_tables.specs.Inside.FailedLists.{IsReadingError, FailsToList};

use crate::autocommit::AutocommitConnection;
use sqlite::types::ValueRef;
use sqlite::{Alter, Error, ErrorCode, Row, Transaction};
use std::alloc::Global;

/// Runs one statement that returns no rows.
pub(crate) fn run<S: Alter>(
    tx: &mut Transaction<'_, S>,
    sql: &str,
    values: &[ValueRef<'_>],
) -> Result<(), Error>
    ensures frame { RunsInTransaction S.Store tx.old tx.new result }
    ensures runs { HasCleanDisk (state_in S.Store tx.new) → OnOk result ((count : ℕ)
        × ExecutesInside 0 sql.now (bound values.now) (state_in S.Store tx.old)
        (state_in S.Store tx.new) (Ok count)) }
    ensures failed { HasCleanDisk (state_in S.Store tx.new) → IfErr result (λ e.
        ExecutesInside 0 sql.now (bound values.now) (state_in S.Store tx.old)
        (state_in S.Store tx.new) (Err e)
        ⊎ ((e ≡ Error.SqliteFailure ErrorCode.TransactionState)
        × ((state_in S.Store tx.old).in_transaction ≡ false))) }
{
    tx.execute(sql, values)?;
    Ok(())
}

/// The rows that a query returns. Commits nothing, for any SQL text.
pub(crate) fn ask<S: Alter>(
    db: &mut AutocommitConnection<S>,
    sql: &str,
    values: &[ValueRef<'_>],
) -> Result<Vec<Row>, Error>
    ensures frame { ReadsInAutocommit S.Store db.old.conn db.new.conn result }
    ensures shown { HasCleanDisk (conn_state db.new) → IfOk result (λ rows. (last : Held S)
        × Shown sql.now (bound values.now) (after_begin S.Store db.old.conn)
        (state S.Store last) rows.items) }
    ensures failed { HasCleanDisk (conn_state db.new) → IfErr result (λ e. (last : Held S)
        × ((state S.Store last).faults ≤ (conn_state db.new).faults)
        × (FailsToQuery sql.now (bound values.now) (after_begin S.Store db.old.conn)
        (state S.Store last) e
        ⊎ IsTooLate sql.now (bound values.now) (after_begin S.Store db.old.conn)
        (state S.Store last) e)) }
{
    let mut tx = db.conn.transaction();
    let rows = tx.query_all(sql, values);
    tx.rollback();
    rows
}

/// A value that is read from a row of a query.
pub(crate) trait FromRow: Sized {
    // The cells of the columns that are read: a row, or parts of it.
    ghost Cells: { Type 0 } = { SqlRow };

    ghost cells_read: { SqlRow → Cells };

    ghost cells: { Self → Cells };

    // The rows that can be read.
    ghost is_readable: { SqlRow → Type 0 };

    /// Reads the value. A readable row fails only by `OutOfMemory`, any other row also because a
    /// column can't be converted.
    fn read(row: &Row) -> Result<Self, Error>
        ensures ok { IfOk result (λ value. cells_read row.now ≡ cells value) }
        ensures err { IfErr result (λ e. is_readable row.now
            → e ≡ Error.SqliteFailure ErrorCode.OutOfMemory) }
        ensures reading_error { IfErr result IsReadingError };
}

/// The values of the rows. Each row is dropped after it is read: only one row's texts are in memory
/// twice at a time.
fn lines_in<L: FromRow + Drop>(alloc: Global, rows: Vec<Row>) -> Result<Vec<L>, Error>
    ensures ok { IfOk result (λ lines. map L.cells_read rows.items ≡ map L.cells lines.items) }
    ensures err { IfErr result (λ e. (All L.is_readable rows.items
        → e ≡ Error.SqliteFailure ErrorCode.OutOfMemory) × IsReadingError e) }
{
    let mut lines = Vec::new(alloc);
    for row in rows {
        lines.push(L::read(&row)?)?;
    }
    Ok(lines)
}

/// The values of the rows that a query returns.
pub(crate) fn list<S: Alter, L: FromRow + Drop>(
    alloc: Global,
    db: &mut AutocommitConnection<S>,
    sql: &str,
    values: &[ValueRef<'_>],
) -> Result<Vec<L>, Error>
    ensures frame { ReadsInAutocommit S.Store db.old.conn db.new.conn result }
    ensures read { HasCleanDisk (conn_state db.new) → IfOk result (λ lines. (last : Held S)
        × (found : List SqlRow)
        × Shown sql.now (bound values.now) (after_begin S.Store db.old.conn) (state S.Store last) found
        × (map L.cells_read found ≡ map L.cells lines.items)) }
    ensures failed { HasCleanDisk (conn_state db.new) → IfErr result (λ e. (last : Held S)
        × FailsToList L.is_readable sql.now (bound values.now) (after_begin S.Store db.old.conn)
        (state S.Store last) (conn_state db.new) e) }
{
    let rows = ask(db, sql, values)?;
    lines_in(alloc, rows)
}

/// The value of the first row that a query returns, or `None`.
pub(crate) fn first<S: Alter, L: FromRow>(
    db: &mut AutocommitConnection<S>,
    sql: &str,
    values: &[ValueRef<'_>],
) -> Result<Option<L>, Error>
    ensures frame { ReadsInAutocommit S.Store db.old.conn db.new.conn result }
    ensures read { HasCleanDisk (conn_state db.new) → IfOk result (λ line. (last : Held S)
        × (found : List SqlRow)
        × Shown sql.now (bound values.now) (after_begin S.Store db.old.conn) (state S.Store last) found
        × (option_map L.cells_read (slice_get found 0) ≡ option_map L.cells line)) }
    ensures failed { HasCleanDisk (conn_state db.new) → IfErr result (λ e. (last : Held S)
        × FailsToList L.is_readable sql.now (bound values.now) (after_begin S.Store db.old.conn)
        (state S.Store last) (conn_state db.new) e) }
{
    let rows = ask(db, sql, values)?;
    match rows.first() {
        None => Ok(None),
        Some(row) => Ok(Some(L::read(row)?)),
    }
}
