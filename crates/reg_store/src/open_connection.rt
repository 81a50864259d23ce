//! A check that a connection is open.

ghost use Rattle.std.specs.Prelude.{◌≡◌, IfErr, OnOk, IsTrue, not};
ghost use Rattle.sqlite.specs.State.{HasCleanDisk};
ghost use Rattle.reg_tables.specs.Frames.{ReadsInAutocommit};
ghost use Rattle.reg_store.specs.Failures.{IsFaultBy, is_fault};
ghost use Rattle.reg_store.specs.Inside.Reads.{shown};

use crate::conn::Conn;
use crate::error::StoreError;
use sqlite::Alter;

/// Fails with `Memory` or `Disk` if the connection is closed or a fault occurs. It prepares a
/// statement that reads no table, which SQLite does only over an open connection.
pub(crate) fn require_open<S: Alter>(db: &mut Conn<S>) -> Result<(), StoreError>
    ensures frame { ReadsInAutocommit S.Store db.old.idle.conn db.new.idle.conn result }
    ensures is_open { HasCleanDisk (shown db.new) → OnOk result (IsTrue (shown db.new).is_open) }
    ensures fault { HasCleanDisk (shown db.new) → IfErr result (IsFaultBy (shown db.old) (shown db.new)) }
{
    let prepared = db.idle.conn.prepare("SELECT 1");
    let _idle = db.idle.conn.is_autocommit();
    match prepared {
        Ok(_) => Ok(()),
        Err(error) => only_fault(StoreError::from(error)),
    }
}

/// Returns `Memory` and `Disk`. Any other error becomes `Ok`: SQLite rejected the statement, which
/// it does only over an open connection.
fn only_fault(error: StoreError) -> Result<(), StoreError>
    ensures ok { OnOk result (IsTrue (not (is_fault error))) }
    ensures err { IfErr result (λ e. (e ≡ error) × IsTrue (is_fault error)) }
{
    match error {
        StoreError::Memory | StoreError::Disk => Err(error),
        _ => Ok(()),
    }
}
