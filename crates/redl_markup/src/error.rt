//! Why a piece was not read.

ghost use Rattle.std.specs.Prelude.{◌≡◌};
ghost use Rattle.redl_markup.specs.declared.error.MarkupError.TheVariants.{NoMemory};

use std::alloc::{AllocError, AllocFailed};
use thiserror::Error;

/// Why a piece was not read.
#[derive(Clone, Copy, Debug, PartialEq, Eq, Error)]
pub enum MarkupError {
    /// The bytes begin with no piece.
    #[error("the bytes do not begin with a piece of XML")]
    Unreadable,
    /// An allocation failed; nothing is known of the bytes.
    #[error("out of memory")]
    NoMemory,
}

impl From<AllocError> for MarkupError {
    ghost from_gives = { λ _ error. error ≡ NoMemory };

    fn from(_error: AllocError) -> MarkupError {
        MarkupError::NoMemory
    }
}

impl<T: Drop> From<AllocFailed<T>> for MarkupError {
    ghost from_gives = { λ _ error. error ≡ NoMemory };

    fn from(_error: AllocFailed<T>) -> MarkupError {
        MarkupError::NoMemory
    }
}
