//! Why a call of a store fails.

ghost use Rattle.std.specs.Prelude.{◌≡◌};
ghost use Rattle.sqlite.specs.declared.error.Error.TheVariants.{SqliteFailure};
ghost use Rattle.reg_store.specs.Failures.{failure_of};

use reg_core::OutOfMemory;
use sqlite::{Constraint, ErrorCode};
use std::alloc::AllocError;
use thiserror::Error;

/// Why a call of a store fails. A failed call changes nothing. But after `Disk`, or after `Memory`
/// if the disk failed too, a crash may leave the whole change.
#[derive(Clone, Copy, Debug, PartialEq, Eq, Error)]
pub enum StoreError {
    /// Allocation failed. The store stays usable, unless the disk failed too.
    #[error("out of memory")]
    Memory,
    /// The disk failed, the file is damaged, a limit of the file was reached, or the connection was
    /// closed. Every later call of the `Store` or the `Lines` that returned this error returns it
    /// too.
    #[error("the disk failed")]
    Disk,
    /// A table or a column is missing or unknown, the database has a view, or the rows don't spell
    /// a registry. `create` and `create_first` return it for a database that isn't empty. `apply`
    /// may also return it if a change doesn't fit the registry, or the key has a reply.
    #[error("not a registry")]
    NotARegistry,
    /// `meta` names an older layout, with this number.
    #[error("layout {0} is older than this program's")]
    OldLayout(u32),
    /// `meta` names a newer layout, with this number.
    #[error("layout {0} is newer than this program's")]
    NewerLayout(u32),
}

impl From<sqlite::Error> for StoreError {
    ghost use Rattle.std.specs.Prelude.{◌≡◌};
    ghost use Rattle.reg_store.specs.Failures.{failure_of};

    ghost from_gives = { λ error failure. failure ≡ failure_of error };

    fn from(error: sqlite::Error) -> StoreError {
        match error {
            sqlite::Error::SqliteFailure(code) => failure_with(code),
            _ => StoreError::NotARegistry,
        }
    }
}

impl From<AllocError> for StoreError {
    ghost use Rattle.std.specs.Prelude.{◌≡◌};
    ghost use Rattle.reg_store.specs.declared.error.StoreError.TheVariants.{Memory};

    ghost from_gives = { λ _ failure. failure ≡ Memory };

    fn from(_error: AllocError) -> StoreError {
        StoreError::Memory
    }
}

impl From<OutOfMemory> for StoreError {
    ghost use Rattle.std.specs.Prelude.{◌≡◌};
    ghost use Rattle.reg_store.specs.declared.error.StoreError.TheVariants.{Memory};

    ghost from_gives = { λ _ failure. failure ≡ Memory };

    fn from(_error: OutOfMemory) -> StoreError {
        StoreError::Memory
    }
}

/// The store's error for an error code of SQLite.
fn failure_with(code: ErrorCode) -> StoreError
    ensures { result ≡ failure_of (SqliteFailure code) }
{
    match code {
        ErrorCode::OutOfMemory => StoreError::Memory,
        ErrorCode::SystemIoFailure
        | ErrorCode::DatabaseCorrupt
        | ErrorCode::DiskFull
        | ErrorCode::TooBig
        | ErrorCode::NoRowid
        | ErrorCode::Closed => StoreError::Disk,
        // SQLite chose a rowid that another row has. This can't happen in a file whose rows are in
        // the order of their rowids: the file is damaged.
        ErrorCode::ConstraintViolation(Constraint::PrimaryKey) => StoreError::Disk,
        _ => StoreError::NotARegistry,
    }
}
