//! Statements on tables with one row for each key.

ghost use Rattle.std.specs.Prelude.{◌≡◌, ◌+◌, ◌∷◌, ℕ, List, [], IsUtf8, IsTrue, string_bytes, None, Some, OnOk, IfOk, IfErr, MatchOption};
ghost use Rattle.std.specs.FinMap.{get};
ghost use Rattle.sqlite.specs.Order.{column};
ghost use Rattle.sqlite.specs.State.{HasCleanDisk};
ghost use Rattle.sqlite.specs.Values.{bound};
ghost use Rattle.reg_tables.specs.Frames.{conn_state, state_in, RunsInTransaction, ReadsInAutocommit};
ghost use Rattle.reg_tables.specs.Contents.{text_cells, TableName, HasTable, KeyOf, ValueOf, form_of, map_of, table_in, Contents, HoldsContents, AreReadable};
ghost use Rattle.reg_tables.specs.Rooms.{HasRoom, CanBeStoredIn};
ghost use Rattle.sqlite.specs.Schema.{Schema};
ghost use Rattle.reg_tables.specs.Reads.{CanBeReadIn};
ghost use Rattle.reg_tables.specs.FailedCalls.{IsFault, IsWriteFault, IsInsertFault};
ghost use Rattle.reg_tables.specs.Inside.Keyed.{refers_to, cells_of, with_entry, without_entry, IsFreeKey};
ghost use Rattle.reg_tables.specs.Inside.KeyedLaws.{IsKeyed, PutsRow, DropsRow, FindsRow};

use crate::autocommit::AutocommitConnection;
use crate::statement::{FromRow, first, run};
use sqlite::types::ValueRef;
use sqlite::{Alter, Error, ErrorCode, Row, Transaction};

/// A table with one row for each key. `Found` is the Rust type of its values.
pub(crate) trait KeyedTable {
    type Found: FromRow;

    ghost name: { TableName };

    ghost value_of: { Self.Found → ValueOf name };

    /// The SELECT of a value. Its parameters are the columns of the key.
    fn find_sql() -> &'static str
        ensures finds { (schema : Schema) → HasTable name schema → FindsRow schema name result.now }
        ensures read { (found : Self.Found) (value : ValueOf name)
            → Self.Found.cells_read ((form_of name).value_cells value) ≡ Self.Found.cells found → value_of found ≡ value }
        ensures readable { (contents : Contents) → AreReadable contents → (key : KeyOf name) (value : ValueOf name)
            → get (map_of name contents) key ≡ Some value → Self.Found.is_readable ((form_of name).value_cells value) };
}

/// A table into which `put` inserts. (`put_text` inserts into `texts`.)
pub(crate) trait InsertableTable: KeyedTable {
    /// The schemas in which rows are written.
    ghost Written: { Schema → Type 0 };

    /// The INSERT of a row. Its parameters are the columns of the key, then those of the value.
    fn put_sql() -> &'static str
        ensures keyed { (schema : Schema) → Written schema → IsKeyed schema Self.name }
        ensures puts { (schema : Schema) → Written schema → PutsRow schema Self.name result.now };
}

/// A table from which `delete` and `set` delete. Deleting a row deletes no row of another table,
/// unlike in `versions`.
pub(crate) trait DeletableTable: InsertableTable {
    /// The DELETE of a row. Its parameters are the columns of the key.
    fn drop_sql() -> &'static str
        ensures keyed { (schema : Schema) → Self.Written schema → IsKeyed schema Self.name }
        ensures drops { (schema : Schema) → Self.Written schema → DropsRow schema Self.name result.now };
}

impl FromRow for String {
    ghost cells_read = { λ row. column row 0 ∷ [] };

    ghost cells = { λ text. text_cells (string_bytes text) };

    ghost is_readable = { λ row. (text : List ℕ) × (row ≡ text_cells text) × IsUtf8 text };

    fn read(row: &Row) -> Result<String, Error> {
        row.get(0)
    }
}

/// Inserts a row under a free key. If the key is taken, the INSERT fails. `values` are the columns
/// of the key, then those of the value.
pub(crate) fn put<S: Alter, T: InsertableTable>(
    tx: &mut Transaction<'_, S>,
    values: &[ValueRef<'_>],
) -> Result<(), Error>
    ensures frame { RunsInTransaction S.Store tx.old tx.new result }
    ensures put { HasCleanDisk (state_in S.Store tx.new) → OnOk result ((schema : Schema) → T.Written schema
        → (key : KeyOf T.name) (value : ValueOf T.name)
        → bound values.now ≡ cells_of T.name key value
        → (contents : Contents) → HoldsContents schema (state_in S.Store tx.old).now contents → IsFreeKey T.name key contents
        → HoldsContents schema (state_in S.Store tx.new).now (with_entry T.name key value contents)) }
    ensures fault { HasCleanDisk (state_in S.Store tx.new) → IfErr result (λ e. (schema : Schema) → T.Written schema
        → (key : KeyOf T.name) (value : ValueOf T.name)
        → bound values.now ≡ cells_of T.name key value
        → (contents : Contents) → HoldsContents schema (state_in S.Store tx.old).now contents → IsFreeKey T.name key contents
        → IsTrue (refers_to T.name contents key value)
        → IsInsertFault (state_in S.Store tx.old) (state_in S.Store tx.new) e) }
    ensures room { HasCleanDisk (state_in S.Store tx.new) → OnOk result ((schema : Schema) → T.Written schema
        → (key : KeyOf T.name) (value : ValueOf T.name)
        → bound values.now ≡ cells_of T.name key value
        → (contents : Contents) → HoldsContents schema (state_in S.Store tx.old).now contents → IsFreeKey T.name key contents
        → (n : ℕ) → HasRoom ((state_in S.Store tx.old).now.trees (table_in schema T.name).tree) (n + 1) → HasRoom ((state_in S.Store tx.new).now.trees (table_in schema T.name).tree) n) }
    ensures fits { HasCleanDisk (state_in S.Store tx.new) → IfErr result (λ e. (schema : Schema) → T.Written schema
        → (key : KeyOf T.name) (value : ValueOf T.name)
        → bound values.now ≡ cells_of T.name key value
        → (contents : Contents) → HoldsContents schema (state_in S.Store tx.old).now contents → IsFreeKey T.name key contents
        → IsTrue (refers_to T.name contents key value) → (n : ℕ) → HasRoom ((state_in S.Store tx.old).now.trees (table_in schema T.name).tree) (n + 1)
        → CanBeStoredIn schema (table_in schema T.name) (cells_of T.name key value)
        → IsWriteFault (state_in S.Store tx.old) (state_in S.Store tx.new) e) }
{
    run(tx, T::put_sql(), values)
}

/// Deletes the row of a key, if it exists.
pub(crate) fn delete<S: Alter, T: DeletableTable>(
    tx: &mut Transaction<'_, S>,
    values: &[ValueRef<'_>],
) -> Result<(), Error>
    ensures frame { RunsInTransaction S.Store tx.old tx.new result }
    ensures dropped { HasCleanDisk (state_in S.Store tx.new) → OnOk result ((schema : Schema) → T.Written schema
        → (key : KeyOf T.name) → bound values.now ≡ (form_of T.name).key_cells key
        → (contents : Contents) → HoldsContents schema (state_in S.Store tx.old).now contents
        → HoldsContents schema (state_in S.Store tx.new).now (without_entry T.name key contents)) }
    ensures fault { HasCleanDisk (state_in S.Store tx.new) → IfErr result (λ e. (schema : Schema) → T.Written schema
        → (key : KeyOf T.name) → bound values.now ≡ (form_of T.name).key_cells key
        → (contents : Contents) → HoldsContents schema (state_in S.Store tx.old).now contents
        → IsWriteFault (state_in S.Store tx.old) (state_in S.Store tx.new) e) }
{
    run(tx, T::drop_sql(), values)
}

/// Inserts a row under a key, or replaces the key's row. `values` contain the key's columns too, as
/// for `put`. An error may leave the old row deleted in the transaction.
pub(crate) fn set<S: Alter, T: DeletableTable>(
    tx: &mut Transaction<'_, S>,
    key_values: &[ValueRef<'_>],
    values: &[ValueRef<'_>],
) -> Result<(), Error>
    ensures frame { RunsInTransaction S.Store tx.old tx.new result }
    ensures set { HasCleanDisk (state_in S.Store tx.new) → OnOk result ((schema : Schema) → T.Written schema
        → (key : KeyOf T.name) (value : ValueOf T.name)
        → bound key_values.now ≡ (form_of T.name).key_cells key → bound values.now ≡ cells_of T.name key value
        → (contents : Contents) → HoldsContents schema (state_in S.Store tx.old).now contents
        → HoldsContents schema (state_in S.Store tx.new).now (with_entry T.name key value contents)) }
    ensures fault { HasCleanDisk (state_in S.Store tx.new) → IfErr result (λ e. (schema : Schema) → T.Written schema
        → (key : KeyOf T.name) (value : ValueOf T.name)
        → bound key_values.now ≡ (form_of T.name).key_cells key → bound values.now ≡ cells_of T.name key value
        → (contents : Contents) → HoldsContents schema (state_in S.Store tx.old).now contents
        → IsTrue (refers_to T.name (without_entry T.name key contents) key value)
        → IsInsertFault (state_in S.Store tx.old) (state_in S.Store tx.new) e) }
{
    delete::<S, T>(tx, key_values)?;
    put::<S, T>(tx, values)
}

/// The value of a key, or `None`.
pub(crate) fn find<S: Alter, T: KeyedTable>(
    db: &mut AutocommitConnection<S>,
    values: &[ValueRef<'_>],
) -> Result<Option<T::Found>, Error>
    ensures frame { ReadsInAutocommit S.Store db.old.conn db.new.conn result }
    ensures found { HasCleanDisk (conn_state db.new) → IfOk result (λ found. (schema : Schema) → HasTable T.name schema
        → (key : KeyOf T.name) → bound values.now ≡ (form_of T.name).key_cells key
        → (contents : Contents) → HoldsContents schema (conn_state db.old).now contents
        → MatchOption found (get (map_of T.name contents) key ≡ None)
        (λ line. get (map_of T.name contents) key ≡ Some (T.value_of line))) }
    ensures fault { HasCleanDisk (conn_state db.new) → IfErr result (λ e. (key : KeyOf T.name)
        → bound values.now ≡ (form_of T.name).key_cells key → CanBeReadIn (HasTable T.name) (conn_state db.old)
        → IsFault (conn_state db.old) (conn_state db.new) e) }
{
    first(db, T::find_sql(), values)
}
