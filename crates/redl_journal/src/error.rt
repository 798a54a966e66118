//! Why a journal is refused.
ghost use Rattle.std.specs.Prelude.{◌≡◌};
ghost use Rattle.redl_journal.specs.declared.error.JournalError.TheVariants.{NoMemory};

use std::alloc::{AllocError, AllocFailed};
use thiserror::Error;

/// Why a journal is refused.
#[derive(Clone, Copy, Debug, PartialEq, Eq, Error)]
pub enum JournalError {
    /// The bytes are the text of no journal.
    #[error("the bytes are not the text of a journal")]
    Malformed,
    /// Out of memory; nothing is known of the bytes.
    #[error("out of memory")]
    NoMemory,
}

impl From<AllocError> for JournalError {
    ghost from_gives = { λ _ e. e ≡ NoMemory };

    fn from(_e: AllocError) -> JournalError {
        JournalError::NoMemory
    }
}

impl<T: Drop> From<AllocFailed<T>> for JournalError {
    ghost from_gives = { λ _ e. e ≡ NoMemory };

    fn from(_e: AllocFailed<T>) -> JournalError {
        JournalError::NoMemory
    }
}
