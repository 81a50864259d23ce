//! Creating a store, and getting its connection back.

ghost use Rattle.std.specs.Prelude.{◌≡◌, ◌≢◌, IfOk, IfErr, OnOk, OnErr, IsErrAnd, IsTrue, None, false};
ghost use Rattle.sqlite.specs.Tree.{Trees};
ghost use Rattle.sqlite.specs.Held.{state};
ghost use Rattle.sqlite.specs.State.{HasCleanDisk, Survives, KeepsCommit};
ghost use Rattle.reg_core.specs.Stored.{new_stored};
ghost use Rattle.reg_tables.specs.Layout.{empty_schema};
ghost use Rattle.reg_tables.specs.FailedCalls.{IsWriteFault};
ghost use Rattle.reg_tables.specs.Writing.{Transforms, IsEmpty};
ghost use Rattle.reg_store.specs.Spells.{RecoversToLayoutOne, IsOpenOverLayoutOne, RecoversTo, IsOpenOver};
ghost use Rattle.reg_store.specs.Failures.{failure_of, IsFaultBy};
ghost use Rattle.reg_store.specs.Stores.{connection_of, state_of, has_failed, KeepsCrashStates, IsCreateFailure};
ghost use Rattle.reg_store.specs.Inside.Applying.{SpellsNew, IsOpenOverNew, RecoversToNew};
ghost use Rattle.reg_store.specs.Inside.Reads.{shown};

use crate::conn::Conn;
use crate::error::StoreError;
use crate::layout::Layout;
use crate::store::Store;
use reg_tables::is_empty_database;
use sqlite::{Alter, Connection, Error, Transaction};
use std::alloc::Global;

impl<S: Alter> Store<S> {
    /// Creates a new registry, without replies or evidence, in an empty database. The connection
    /// must be outside a transaction. A failed call returns it outside a transaction and without a
    /// step limit.
    ///
    /// # Errors
    ///
    /// `NotARegistry` if and only if the database has a table, an index or a view. Otherwise
    /// `Memory` if an allocation fails, `Disk` if the disk fails, the file is damaged or the
    /// connection is closed. The database stays as it was. But after `Disk`, or after `Memory` if the
    /// disk failed too, a crash may leave the new registry.
    pub fn create(
        alloc: Global,
        connection: Connection<S>,
    ) -> Result<Store<S>, (StoreError, Connection<S>)>
        requires { connection.in_transaction ≡ false }
        ensures done { IfOk result (λ store. HasCleanDisk (state_of store)
            → IsOpenOver (state_of store) new_stored) }
        ensures unfailed { IfOk result (λ store. has_failed store ≡ false) }
        ensures shield { IfOk result (λ store. (state S.Store connection).IsShielded
            → (state_of store).IsShielded) }
        ensures full { (state S.Store connection).now.schema ≢ empty_schema
            → IsErrAnd result (λ e. e.0 ≡ StoreError.NotARegistry) }
        ensures idle { IfErr result (λ e. e.1.in_transaction ≡ false) }
        ensures unlimited { IfErr result (λ e. e.1.step_limit ≡ None) }

        ensures fails { IfErr result (λ e. IsCreateFailure (λ db. RecoversTo db new_stored)
            (state S.Store connection) (state S.Store e.1) e.0) }

        // A crash leaves the new registry.
        ensures crash_after { IfOk result (λ store. HasCleanDisk (state_of store) → (db : Trees)
            → (state_of store).may_leave db → RecoversTo db new_stored) }
    {
        let (made, db) = create_layout(connection, Layout::Two);
        match made {
            Ok(()) => Ok(Store {
                alloc,
                db,
                failed: false,
            }),
            Err(error) => Err((error, db.idle.conn)),
        }
    }

    /// Whether the store has returned `Disk`. From then on every call returns it. `Disk` from
    /// `Lines::next` doesn't count.
    pub fn failed(&self) -> bool
        ensures { result ≡ has_failed self.now }
    {
        self.failed
    }

    /// The connection, outside a transaction.
    pub fn into_connection(self) -> Connection<S>
        ensures same { result ≡ connection_of self }
        ensures idle { result.in_transaction ≡ false }
    {
        self.db.idle.conn
    }
}

/// Creates a new registry in layout 1, as programs before layout 2 did, in an empty database. The
/// connection must be outside a transaction. The call returns it outside a transaction and without
/// a step limit.
///
/// # Errors
///
/// `NotARegistry` if and only if the database has a table, an index or a view. Otherwise `Memory`
/// if an allocation fails, `Disk` if the disk fails, the file is damaged or the connection is
/// closed. The database stays as it was. But after `Disk`, or after `Memory` if the disk failed
/// too, a crash may leave the new registry.
pub fn create_first<S: Alter>(connection: Connection<S>) -> (Result<(), StoreError>, Connection<S>)
    requires { connection.in_transaction ≡ false }
    ensures idle { result.1.in_transaction ≡ false }
    ensures unlimited { result.1.step_limit ≡ None }
    ensures done { HasCleanDisk (state S.Store result.1)
        → OnOk result.0 (IsOpenOverLayoutOne (state S.Store result.1) new_stored) }
    ensures full { (state S.Store connection).now.schema ≢ empty_schema
        → IsErrAnd result.0 (λ e. e ≡ StoreError.NotARegistry) }

    ensures fails { IfErr result.0 (IsCreateFailure (λ db. RecoversToLayoutOne db new_stored)
        (state S.Store connection) (state S.Store result.1)) }

    // A crash leaves the new registry.
    ensures crash_after { HasCleanDisk (state S.Store result.1) → OnOk result.0 ((db : Trees)
        → (state S.Store result.1).may_leave db → RecoversToLayoutOne db new_stored) }
{
    let (made, db) = create_layout(connection, Layout::One);
    (made, db.idle.conn)
}

/// Creates a new registry of this layout in an empty database. `create` says when it fails.
fn create_layout<S: Alter>(
    connection: Connection<S>,
    layout: Layout,
) -> (Result<(), StoreError>, Conn<S>)
    requires { connection.in_transaction ≡ false }
    ensures done { HasCleanDisk (shown result.1)
        → OnOk result.0 (IsOpenOverNew layout (shown result.1)) }
    ensures shield { OnOk result.0 ((state S.Store connection).IsShielded → (shown result.1).IsShielded) }
    ensures full { (state S.Store connection).now.schema ≢ empty_schema
        → IsErrAnd result.0 (λ e. e ≡ StoreError.NotARegistry) }
    ensures fails { IfErr result.0
        (IsCreateFailure (RecoversToNew layout) (state S.Store connection) (shown result.1)) }
    ensures crash_after { HasCleanDisk (shown result.1) → OnOk result.0 ((db : Trees)
        → (shown result.1).may_leave db → RecoversToNew layout db) }
{
    let mut db = Conn::new(connection);
    if !is_empty_database(&db.idle.conn) {
        return (Err(StoreError::NotARegistry), db);
    }
    let made = create_in(&mut db, layout);
    let _settled = db.idle.conn.is_autocommit();
    match made {
        Ok(()) => (Ok(()), db),
        Err(error) => (Err(StoreError::from(error)), db),
    }
}

/// Creates the tables of a new registry in one transaction.
fn create_in<S: Alter>(db: &mut Conn<S>, layout: Layout) -> Result<(), Error>
    ensures done { HasCleanDisk (shown db.new) → OnOk result ((shown db.old).now.schema ≡ empty_schema
        → IsOpenOverNew layout (shown db.new)) }
    ensures fault { HasCleanDisk (shown db.new) → IfErr result (λ e.
        (shown db.old).now.schema ≡ empty_schema
        → IsFaultBy (shown db.old) (shown db.new) (failure_of e)) }
    ensures nothing { HasCleanDisk (shown db.new) → OnErr result (KeepsCommit (shown db.old) (shown db.new)) }
    ensures before { HasCleanDisk (shown db.new) → IfErr result (λ e. IsTrue (shown db.old).is_open
        → KeepsCrashStates (shown db.old) (shown db.new) (failure_of e)) }
    ensures survives { Survives (shown db.old) (shown db.new) (λ left.
        (shown db.old).now.schema ≡ empty_schema → RecoversToNew layout left) }
{
    let mut tx = db.idle.conn.transaction();
    create_tables(&mut tx, layout)?;
    tx.commit()
}

fn create_tables<S: Alter>(tx: &mut Transaction<'_, S>, layout: Layout) -> Result<(), Error>
    ensures { Transforms IsWriteFault S.Store tx.old tx.new result IsEmpty (λ _. SpellsNew layout) }
{
    match layout {
        Layout::One => reg_tables::create_layout_one(tx),
        Layout::Two => reg_tables::create_layout_two(tx),
    }
}
