//! Why a delivery gets the reply 50001.

use reg_core::OutOfMemory;
use reg_store::StoreError;

/// An allocation failed, or the store did.
#[derive(Debug, Drop)]
pub(crate) struct AnswerError;

impl From<OutOfMemory> for AnswerError {
    fn from(_error: OutOfMemory) -> AnswerError {
        AnswerError
    }
}

impl From<StoreError> for AnswerError {
    fn from(_error: StoreError) -> AnswerError {
        AnswerError
    }
}
