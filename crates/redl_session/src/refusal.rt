//! What becomes of an entry, and why it or a writing is refused.
ghost use Rattle.std.specs.Prelude.{◌≡◌};

use redl_io::Failed;
use redl_journal::Entry;
use std::alloc::AllocError;
use thiserror::Error;

/// How an entry was admitted.
#[derive(Clone, Copy, Debug, PartialEq, Eq)]
pub enum Taken {
    /// The book has it now.
    New,
    /// The book had it before, and nothing changed.
    Repeat,
}

/// What bars a revision that a lock holds.
#[derive(Clone, Copy, Debug, PartialEq, Eq)]
pub enum Bar {
    /// A lock on its author.
    Author,
    /// A lock on its kind, and none on its author.
    Kind,
    /// A lock on a span of time alone.
    Span,
}

/// Why an entry was refused.
#[derive(Clone, Copy, Debug, PartialEq, Eq, Error)]
pub enum AdmitError {
    /// The package does not have the revision.
    #[error("the package does not have the revision")]
    Unknown,
    /// A lock holds the revision, which is barred by this.
    #[error("a lock holds the revision")]
    Locked(Bar),
    /// Out of memory.
    #[error("out of memory")]
    NoMemory,
}

/// An entry that was refused, and why.
#[derive(Drop)]
pub struct Refusal {
    /// The entry, as it was given.
    pub entry: Entry,
    /// Why it was refused.
    pub why: AdmitError,
}

/// Why a session was not written.
#[derive(Clone, Copy, Debug, PartialEq, Eq, Error)]
pub enum SessionWriteError {
    /// The sink failed, and has only a prefix of the text.
    #[error("the sink failed")]
    Failed,
    /// Out of memory, before anything was put.
    #[error("out of memory")]
    NoMemory,
}
