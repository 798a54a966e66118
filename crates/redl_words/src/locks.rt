//! The texts of locks.

ghost use Rattle.std.specs.Prelude.{◌≡◌, IfErr};
ghost use Rattle.redl_words.specs.Reading.Answers.{Finds};
ghost use Rattle.redl_words.specs.Reading.Locks.{lock_in, kind_lock_in, span_lock_in};

use crate::error::WordsError;
use crate::options::Locked;
use crate::selections::{read_kind_name, read_moments};
use redl_io::Text;
use redl_kinds::Lock;
use std::alloc::Global;

/// The lock of this sort that a text means: the name of an author, the name of a kind, or two dates with a slash between.
#[tactic(auto, unfolding(crate::specs::Reading::Locks::lock_in))]
pub(crate) fn read_lock(alloc: Global, on: Locked, text: &str) -> Result<Lock, WordsError>
    ensures { Finds (λ lock. lock) result (lock_in on text.now) }
{
    match on {
        Locked::Author => Ok(Lock::Author(Text::copy_of(alloc, text.as_bytes())?)),
        Locked::Kind => read_kind_lock(text),
        Locked::Span => read_span_lock(text),
    }
}

// The lock on the kind with this name.
fn read_kind_lock(name: &str) -> Result<Lock, WordsError>
    ensures found { Finds (λ lock. lock) result (kind_lock_in name.now) }
    ensures cause { IfErr result (λ error. error ≡ WordsError.Usage) }
{
    match read_kind_name(name) {
        Some(kind) => Ok(Lock::Kind(kind)),
        None => Err(WordsError::Usage),
    }
}

// The lock on the span between two dates with a slash between.
fn read_span_lock(text: &str) -> Result<Lock, WordsError>
    ensures found { Finds (λ lock. lock) result (span_lock_in text.now) }
    ensures cause { IfErr result (λ error. error ≡ WordsError.Usage) }
{
    match read_moments(text) {
        Some((start, end)) => Ok(Lock::Span(start, end)),
        None => Err(WordsError::Usage),
    }
}
