//! Why a migration fails.

ghost use Rattle.std.specs.Prelude.{◌≡◌};
ghost use Rattle.reg_migrate.specs.Errors.{migrate_error_of};

use reg_store::StoreError;
use thiserror::Error;

/// Why a migration fails. The database stays as it was. But after `Disk`, or after `Memory` if the
/// disk failed too, a crash may leave it migrated.
#[derive(Clone, Copy, Debug, PartialEq, Eq, Error)]
pub enum MigrateError {
    /// An allocation failed.
    #[error("out of memory")]
    Memory,
    /// The disk failed, the file is damaged, a limit of the file was reached, or the connection was
    /// closed.
    #[error("the disk failed")]
    Disk,
    /// A table or a column is missing or unknown, the database has a view, or the rows don't spell
    /// a registry.
    #[error("not a registry")]
    NotARegistry,
    /// `meta` names layout 2.
    #[error("the layout is this program's")]
    AlreadyNew,
    /// `meta` names a layout above 2, with this number.
    #[error("layout {0} is newer than this program's")]
    NewerLayout(u32),
}

impl From<StoreError> for MigrateError {
    ghost use Rattle.std.specs.Prelude.{◌≡◌};
    ghost use Rattle.reg_migrate.specs.Errors.{migrate_error_of};

    ghost from_gives = { λ error failure. failure ≡ migrate_error_of error };

    fn from(error: StoreError) -> MigrateError {
        match error {
            StoreError::Memory => MigrateError::Memory,
            StoreError::Disk => MigrateError::Disk,
            StoreError::NewerLayout(2) => MigrateError::AlreadyNew,
            StoreError::NewerLayout(number) => MigrateError::NewerLayout(number),
            StoreError::NotARegistry | StoreError::OldLayout(_) => MigrateError::NotARegistry,
        }
    }
}
