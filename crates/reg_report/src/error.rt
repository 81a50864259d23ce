//! Why a listing fails.

use reg_core::OutOfMemory;
use reg_store::StoreError;
use thiserror::Error;

/// Why a listing fails. A part of it may have been written.
#[derive(Debug, Drop, Error)]
pub enum ReportError {
    /// The store failed, or ran out of memory.
    #[error(transparent)]
    Store(StoreError),
    /// An allocation for the output failed.
    #[error("out of memory")]
    OutOfMemory,
    /// A write failed.
    #[error("a write failed")]
    Write,
}

impl From<StoreError> for ReportError {
    ghost use Rattle.std.specs.Prelude.{◌≡◌};
    ghost use Rattle.reg_report.specs.declared.error.ReportError.TheVariants.{Store};

    ghost from_gives = { λ error failure. failure ≡ Store error };

    fn from(error: StoreError) -> ReportError {
        ReportError::Store(error)
    }
}

impl From<OutOfMemory> for ReportError {
    ghost use Rattle.std.specs.Prelude.{◌≡◌};
    ghost use Rattle.reg_report.specs.declared.error.ReportError.TheVariants.{OutOfMemory};

    ghost from_gives = { λ _ failure. failure ≡ OutOfMemory };

    fn from(_error: OutOfMemory) -> ReportError {
        ReportError::OutOfMemory
    }
}
