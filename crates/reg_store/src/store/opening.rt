//! Opening a store over the tables of a registry.

ghost use Rattle.std.specs.Prelude.{◌≡◌, ◌⊎◌, IfOk, IfErr, OnOk, OnErr, IsTrue, None, false};
ghost use Rattle.sqlite.specs.Tree.{Trees};
ghost use Rattle.sqlite.specs.Held.{state};
ghost use Rattle.sqlite.specs.State.{HasCleanDisk, Survives, KeepsCommit};
ghost use Rattle.reg_tables.specs.Layout.{layout_two_unindexed, layout_two_indexed_last};
ghost use Rattle.reg_tables.specs.Contents.{Contents, HoldsContents};
ghost use Rattle.reg_store.specs.Failures.{failure_of, IsFaultBy};
ghost use Rattle.reg_store.specs.Opening.{OpensOver, IsIndexed, CrashKeepsStored};
ghost use Rattle.reg_store.specs.Stores.{state_of, has_failed, KeepsCrashStates, KeepsConnection};
ghost use Rattle.reg_store.specs.OpenFailures.{IsOpenFailure};
ghost use Rattle.reg_store.specs.Inside.Applying.{HoldsWithIndex};
ghost use Rattle.reg_store.specs.Inside.Reads.{shown};

use crate::conn::Conn;
use crate::error::StoreError;
use crate::open_connection::require_open;
use crate::store::Store;
use crate::table_checks::check_layout_two;
use reg_tables::{index_versions, is_unindexed_two};
use sqlite::{Alter, Connection, Error};
use std::alloc::Global;

impl<S: Alter> Store<S> {
    /// Opens the registry that the tables of a database spell. The connection must be outside a
    /// transaction. A failed call returns it outside a transaction and without a step limit. If the
    /// tables lack the index of versions, `open` adds it in a transaction of its own.
    ///
    /// # Errors
    ///
    /// `OldLayout` or `NewerLayout` if the database begins with the five tables of layout 1, has no
    /// view, and `meta` names a layout below or above 2, with any contents of other tables. If it
    /// begins otherwise, that error or `NotARegistry`. Otherwise `NotARegistry`, if the tables spell
    /// no registry in layout 2 or the database has a view. `Memory` if an allocation fails, `Disk` if
    /// the disk fails, the file is damaged or the connection is closed. The database stays as it was.
    /// But after `Disk`, or after `Memory` if the disk failed too, a crash may leave the index in
    /// addition.
    pub fn open(
        alloc: Global,
        connection: Connection<S>,
    ) -> Result<Store<S>, (StoreError, Connection<S>)>
        requires { connection.in_transaction ≡ false }
        ensures done { IfOk result (λ store. HasCleanDisk (state_of store)
            → OpensOver (state S.Store connection) (state_of store)) }
        ensures unfailed { IfOk result (λ store. has_failed store ≡ false) }
        ensures shield { IfOk result (λ store. (state S.Store connection).IsShielded
            → (state_of store).IsShielded) }
        ensures fails { IfErr result (λ e. HasCleanDisk (state S.Store e.1)
            → IsOpenFailure (state S.Store connection) (state S.Store e.1) e.0) }
        ensures idle { IfErr result (λ e. e.1.in_transaction ≡ false) }
        ensures unlimited { IfErr result (λ e. e.1.step_limit ≡ None) }
        ensures leaves { IfErr result (λ e.
            KeepsConnection (state S.Store connection) (state S.Store e.1) e.0) }

        // A crash leaves what a crash before the call could leave, or the same tables with the
        // index: nothing is lost.
        ensures found_after { IfOk result (λ store. HasCleanDisk (state_of store)
            → CrashKeepsStored (state S.Store connection) (state_of store)) }
        ensures found_failed { IfErr result (λ e. HasCleanDisk (state S.Store e.1)
            → CrashKeepsStored (state S.Store connection) (state S.Store e.1)) }
        ensures crash_after { IfOk result (λ store. HasCleanDisk (state_of store) → (db : Trees)
            → (state_of store).may_leave db
            → (state S.Store connection).may_leave db ⊎ IsIndexed (state S.Store connection).now db) }
        ensures crash_failed { IfErr result (λ e. HasCleanDisk (state S.Store e.1) → (db : Trees)
            → (state S.Store e.1).may_leave db
            → (state S.Store connection).may_leave db ⊎ IsIndexed (state S.Store connection).now db) }
    {
        let mut db = Conn::new(connection);
        match make_ready(alloc, &mut db) {
            Ok(()) => Ok(Store {
                alloc,
                db,
                failed: false,
            }),
            Err(error) => Err((error, db.idle.conn)),
        }
    }
}

/// Checks the tables, then adds the index if it is missing. On `Ok` the connection is open.
fn make_ready<S: Alter>(alloc: Global, db: &mut Conn<S>) -> Result<(), StoreError>
    ensures done { HasCleanDisk (shown db.new) → OnOk result (OpensOver (shown db.old) (shown db.new)) }
    ensures fails { HasCleanDisk (shown db.new) → IfErr result (IsOpenFailure (shown db.old) (shown db.new)) }
    ensures leaves { IfErr result (KeepsConnection (shown db.old) (shown db.new)) }
    ensures survives { Survives (shown db.old) (shown db.new) (IsIndexed (shown db.old).now) }
{
    let _live = db.idle.conn.schema();
    let _idle = db.idle.conn.is_autocommit();
    check_layout_two(alloc, db)?;
    if !is_unindexed_two(&db.idle.conn) {
        return require_open(db);
    }
    let made = add_index(db);
    let _settled = db.idle.conn.is_autocommit();
    Ok(made?)
}

/// Adds the index of versions in one transaction.
fn add_index<S: Alter>(db: &mut Conn<S>) -> Result<(), Error>
    ensures done { HasCleanDisk (shown db.new) → OnOk result (
        IsTrue (shown db.old).is_open × IsTrue (shown db.new).is_open
        × ((shown db.new).committed ≡ (shown db.new).now)
        × ((contents : Contents) → HoldsContents layout_two_unindexed (shown db.old).now contents
        → HoldsContents layout_two_indexed_last (shown db.new).now contents)) }
    ensures fault { HasCleanDisk (shown db.new) → IfErr result (λ e.
        (IsTrue (shown db.old).is_open
        → (contents : Contents) × HoldsContents layout_two_unindexed (shown db.old).now contents)
        → IsFaultBy (shown db.old) (shown db.new) (failure_of e)) }
    ensures nothing { HasCleanDisk (shown db.new) → OnErr result (KeepsCommit (shown db.old) (shown db.new)) }
    ensures before { HasCleanDisk (shown db.new) → IfErr result (λ e. IsTrue (shown db.old).is_open
        → KeepsCrashStates (shown db.old) (shown db.new) (failure_of e)) }
    ensures survives { Survives (shown db.old) (shown db.new)
        (λ left. IsTrue (shown db.old).is_open × HoldsWithIndex (shown db.old).now left) }
{
    let mut tx = db.idle.conn.transaction();
    index_versions(&mut tx)?;
    tx.commit()
}
