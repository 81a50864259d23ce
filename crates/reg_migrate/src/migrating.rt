//! The migration of a registry from layout 1 to layout 2.

ghost use Rattle.std.specs.Prelude.{◌≡◌, ◌⊎◌, IfErr, IfOk, OnErr, OnOk, IsTrue, None, false};
ghost use Rattle.sqlite.specs.Tree.{Trees};
ghost use Rattle.sqlite.specs.Held.{state};
ghost use Rattle.sqlite.specs.State.{HasCleanDisk, Survives};
ghost use Rattle.reg_tables.specs.Reads.{OnlyReads};
ghost use Rattle.reg_migrate.specs.Errors.{KeepsCrashStates, MigrationKeeps, is_fault};
ghost use Rattle.reg_migrate.specs.Inside.{HasLayoutOneIfOpen, IsMigratedOver, TreesHoldMigrated};
ghost use Rattle.reg_migrate.specs.Migrations.{IsReasonOver, RecoversToMigrated, CrashKeepsStored, Migrates};

use crate::error::MigrateError;
use crate::statements::migrate_all;
use reg_store::{StoreError, check_first};
use reg_tables::AutocommitConnection;
use sqlite::{Alter, Connection};
use std::alloc::Global;

/// The result of a migration.
#[derive(Clone, Copy, Debug, PartialEq, Eq)]
pub struct Report {
    /// The number of versions, soft-deleted ones too.
    pub versions: u64,
}

/// Migrates the tables of layout 1. The report has the caller's count `versions`.
fn migrate_connection<S: Alter>(
    connection: Connection<S>,
    versions: u64,
) -> (Result<Report, MigrateError>, Connection<S>)
    requires idle { connection.in_transaction ≡ false }
    requires unlimited { connection.step_limit ≡ None }
    ensures counted { IfOk result.0 (λ report. report.versions ≡ versions) }
    ensures done { HasCleanDisk (state S.Store result.1)
        → OnOk result.0 (IsMigratedOver (state S.Store connection) (state S.Store result.1)) }
    ensures fault { HasCleanDisk (state S.Store result.1) → IfErr result.0 (λ e.
        HasLayoutOneIfOpen (state S.Store connection) → IsTrue (is_fault e)) }
    ensures idle { result.1.in_transaction ≡ false }
    ensures nothing { HasCleanDisk (state S.Store result.1)
        → OnErr result.0 (OnlyReads (state S.Store connection) (state S.Store result.1)) }
    ensures before { HasCleanDisk (state S.Store result.1) → IfErr result.0 (λ e.
        IsTrue (state S.Store connection).is_open
        → KeepsCrashStates (state S.Store connection) (state S.Store result.1) e) }
    ensures survives { Survives (state S.Store connection) (state S.Store result.1)
        (λ left. IsTrue (state S.Store connection).is_open × TreesHoldMigrated (state S.Store connection).now left) }
{
    let mut db = AutocommitConnection { conn: connection };
    let migrated = migrate_all(&mut db);
    let _idle = db.conn.is_autocommit();
    let AutocommitConnection { conn } = db;
    match migrated {
        Ok(()) => (Ok(Report { versions }), conn),
        Err(error) => (Err(MigrateError::from(StoreError::from(error))), conn),
    }
}

/// Migrates the registry and its kept replies from layout 1 to layout 2, in one transaction. The
/// connection must be outside a transaction. The call returns it outside a transaction and without
/// a step limit.
///
/// # Errors
///
/// If the database begins with the five tables of layout 1, has no view, and `meta` names a layout
/// above 1: `AlreadyNew` for layout 2, `NewerLayout` for a greater one, with any contents of other
/// tables. If it begins otherwise, that error or `NotARegistry`. Otherwise `NotARegistry`, if the
/// tables spell no registry in layout 1 or the database has a view.
/// `Memory` if an allocation fails. `Disk` if the disk fails, the file is damaged or reaches a limit,
/// or the connection is closed.
///
/// The database stays as it was. But if its tables spelled a registry in layout 1, a crash may
/// leave layout 2 after `Disk`, or after `Memory` if the disk failed too.
pub fn migrate<S: Alter>(
    alloc: Global,
    connection: Connection<S>,
) -> (Result<Report, MigrateError>, Connection<S>)
    requires { connection.in_transaction ≡ false }
    ensures done { HasCleanDisk (state S.Store result.1) → IfOk result.0 (λ report.
        Migrates (state S.Store connection) (state S.Store result.1) report.versions) }
    ensures reason { HasCleanDisk (state S.Store result.1)
        → IfErr result.0 (IsReasonOver (state S.Store connection) (state S.Store result.1)) }
    ensures idle { result.1.in_transaction ≡ false }
    ensures unlimited { result.1.step_limit ≡ None }
    ensures leaves { MigrationKeeps (state S.Store connection) (state S.Store result.1) result.0 }

    // After `Ok`, a crash leaves layout 2. After an error it leaves layout 2 or what it could leave
    // before; if layout 1 spelled no registry, only the latter. If the connection was open, a crash
    // keeps the registry in every case.
    ensures crash_after { HasCleanDisk (state S.Store result.1) → OnOk result.0 ((db : Trees)
        → (state S.Store result.1).may_leave db → RecoversToMigrated (state S.Store connection).now db) }
    ensures crash { HasCleanDisk (state S.Store result.1) → (db : Trees)
        → (state S.Store result.1).may_leave db
        → (state S.Store connection).may_leave db ⊎ RecoversToMigrated (state S.Store connection).now db }
    ensures found { HasCleanDisk (state S.Store result.1)
        → CrashKeepsStored (state S.Store connection) (state S.Store result.1) }
{
    let _idle = connection.is_autocommit();
    let (counted, connection) = check_first(alloc, connection);
    match counted {
        Ok(versions) => migrate_connection(connection, versions),
        Err(error) => (Err(MigrateError::from(error)), connection),
    }
}
