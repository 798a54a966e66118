//! Why the words of a command line are refused.

ghost use Rattle.std.specs.Prelude.{◌≡◌};
ghost use Rattle.redl_words.specs.declared.error.WordsError.TheVariants.{NoMemory};

use std::alloc::{AllocError, AllocFailed};
use thiserror::Error;

/// Why the words of a command line are refused.
#[derive(Clone, Copy, Debug, PartialEq, Eq, Error)]
pub enum WordsError {
    /// They are the words of no command.
    #[error("the words are not a command")]
    Usage,
    /// Out of memory; nothing is known of the words.
    #[error("out of memory")]
    NoMemory,
}

impl From<AllocError> for WordsError {
    ghost from_gives = { λ _ e. e ≡ NoMemory };

    fn from(_e: AllocError) -> WordsError {
        WordsError::NoMemory
    }
}

impl<T: Drop> From<AllocFailed<T>> for WordsError {
    ghost from_gives = { λ _ e. e ≡ NoMemory };

    fn from(_e: AllocFailed<T>) -> WordsError {
        WordsError::NoMemory
    }
}
