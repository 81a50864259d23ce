//! The check of layout 1.

ghost use Rattle.std.specs.Prelude.{◌≡◌, IfOk, IfErr, None, false};
ghost use Rattle.sqlite.specs.Held.{state};
ghost use Rattle.sqlite.specs.State.{HasCleanDisk};
ghost use Rattle.reg_tables.specs.Frames.{ReadsInAutocommit};
ghost use Rattle.reg_store.specs.Opening.{FindsLayoutOne};
ghost use Rattle.reg_store.specs.OpenFailures.{IsCheckFailure};

use crate::conn::Conn;
use crate::error::StoreError;
use crate::table_checks::check_layout_one;
use sqlite::{Alter, Connection};
use std::alloc::Global;

/// The number of rows of `versions`, including soft-deleted ones, if the tables spell a registry in
/// layout 1, with or without the index. The connection must be outside a transaction. The call
/// returns it outside a transaction and without a step limit. Nothing is written.
///
/// # Errors
///
/// `NewerLayout` if the database begins with the five tables of layout 1, has no view, and `meta`
/// names a layout above 1, with any contents of other tables. If it begins otherwise, that error or
/// `NotARegistry`. Otherwise `NotARegistry`, if the tables spell no registry in layout 1 or the
/// database has a view. `Memory` if an allocation fails, `Disk` if the disk fails, the file is
/// damaged or the connection is closed.
pub fn check_first<S: Alter>(
    alloc: Global,
    connection: Connection<S>,
) -> (Result<u64, StoreError>, Connection<S>)
    requires { connection.in_transaction ≡ false }
    ensures idle { result.1.in_transaction ≡ false }
    ensures unlimited { result.1.step_limit ≡ None }
    ensures frame { ReadsInAutocommit S.Store (record connection { step_limit = None }) result.1 result.0 }
    ensures found { HasCleanDisk (state S.Store result.1)
        → IfOk result.0 (FindsLayoutOne (state S.Store connection).now) }
    ensures fails { HasCleanDisk (state S.Store result.1)
        → IfErr result.0 (IsCheckFailure (state S.Store connection) (state S.Store result.1)) }
{
    let mut db = Conn::new(connection);
    let found = check_layout_one(alloc, &mut db);
    (found, db.idle.conn)
}
