//! The statements that turn layout 1 into layout 2.

ghost use Rattle.std.specs.Prelude.{◌≡◌, ◌↔◌, IfErr, OnOk, OnErr, IsTrue, None};
ghost use Rattle.sqlite.specs.State.{HasCleanDisk, Survives, KeepsCommit};
ghost use Rattle.reg_tables.specs.Frames.{conn_state, state_in, RunsInTransaction};
ghost use Rattle.reg_tables.specs.Layout.{layout_one, layout_one_unindexed, layout_two};
ghost use Rattle.reg_tables.specs.Contents.{HoldsContents};
ghost use Rattle.reg_tables.specs.Changes.{marked_layout_two};
ghost use Rattle.reg_tables.specs.Writing.{Transforms, Holding};
ghost use Rattle.reg_tables.specs.FailedCalls.{IsInsertFault};
ghost use Rattle.reg_store.specs.Failures.{failure_of, is_fault};
ghost use Rattle.reg_store.specs.Stores.{KeepsCrashStates};
ghost use Rattle.reg_migrate.specs.Inside.{HasLayoutOneIfOpen, HoldsMigrated, IsMigratedOver, TreesHoldMigrated};

use reg_tables::{
    AutocommitConnection, add_tables, index_versions, is_unindexed_one, mark_layout_two,
};
use sqlite::{Alter, Error, Transaction};

/// Turns layout 1 with its index into layout 2.
fn extend<S: Alter>(tx: &mut Transaction<'_, S>) -> Result<(), Error>
    ensures { Transforms IsInsertFault S.Store tx.old tx.new result
        (Holding layout_one) (λ contents db. HoldsContents layout_two db (marked_layout_two contents)) }
{
    add_tables(tx)?;
    mark_layout_two(tx)
}

/// Turns layout 1 without its index into layout 2.
fn migrate_unindexed<S: Alter>(tx: &mut Transaction<'_, S>) -> Result<(), Error>
    ensures { Transforms IsInsertFault S.Store tx.old tx.new result
        (Holding layout_one_unindexed) (λ contents db. HoldsContents layout_two db (marked_layout_two contents)) }
{
    index_versions(tx)?;
    extend(tx)
}

/// Turns layout 1 with or without its index into layout 2.
fn migrate_tables<S: Alter>(tx: &mut Transaction<'_, S>, lacks_index: bool) -> Result<(), Error>
    requires known { IsTrue lacks_index ↔ ((state_in S.Store tx.now).now.schema ≡ layout_one_unindexed) }
    ensures frame { RunsInTransaction S.Store tx.old tx.new result }
    ensures migrated { HasCleanDisk (state_in S.Store tx.new)
        → OnOk result (HoldsMigrated (state_in S.Store tx.old).now (state_in S.Store tx.new).now) }
    ensures fault { HasCleanDisk (state_in S.Store tx.new) → IfErr result (λ e.
        HasLayoutOneIfOpen (state_in S.Store tx.old)
        → IsInsertFault (state_in S.Store tx.old) (state_in S.Store tx.new) e) }
{
    if lacks_index {
        migrate_unindexed(tx)
    } else {
        extend(tx)
    }
}

/// Turns layout 1 into layout 2, in one transaction.
pub fn migrate_all<S: Alter>(db: &mut AutocommitConnection<S>) -> Result<(), Error>
    requires unlimited { db.now.conn.step_limit ≡ None }
    ensures done { HasCleanDisk (conn_state db.new) → OnOk result (IsMigratedOver (conn_state db.old) (conn_state db.new)) }
    ensures fault { HasCleanDisk (conn_state db.new) → IfErr result (λ e.
        HasLayoutOneIfOpen (conn_state db.old) → IsTrue (is_fault (failure_of e))) }
    ensures nothing { HasCleanDisk (conn_state db.new)
        → OnErr result (KeepsCommit (conn_state db.old) (conn_state db.new)) }
    ensures before { HasCleanDisk (conn_state db.new) → IfErr result (λ e. IsTrue (conn_state db.old).is_open
        → KeepsCrashStates (conn_state db.old) (conn_state db.new) (failure_of e)) }
    ensures survives { Survives (conn_state db.old) (conn_state db.new)
        (λ left. IsTrue (conn_state db.old).is_open × TreesHoldMigrated (conn_state db.old).now left) }
{
    let lacks_index = is_unindexed_one(&db.conn);
    let mut tx = db.conn.transaction();
    migrate_tables(&mut tx, lacks_index)?;
    tx.commit()
}
