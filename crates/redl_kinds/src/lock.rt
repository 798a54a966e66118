//! What nobody may decide.
ghost use Rattle.std.specs.Prelude.{◌≡◌, false, IfOk, IsOk};

use crate::rev_kind::RevKind;
use redl_io::Text;
use std::alloc::{AllocError, Global};

/// A lock on revisions of a package, which nobody decides then.
#[derive(Drop)]
pub enum Lock {
    /// On the revisions by the author with this name, compared byte by byte.
    Author(Text),
    /// On the revisions of this kind. A paired move has the kind move alone.
    Kind(RevKind),
    /// On the revisions made from the first moment on and before the second, in seconds from 1970-01-01T00:00:00Z. It holds no
    /// revision without a date.
    Span(i64, i64),
}

impl Lock {
    ghost use Rattle.redl_kinds.specs.Locks.{is_author, is_kind};

    /// An equal lock. `Err` means out of memory.
    pub fn copy(&self, alloc: Global) -> Result<Lock, AllocError>
        ensures equal { IfOk result (λ lock. lock ≡ self.now) }

        // Only an author's name takes memory.
        ensures succeeds { is_author self.now ≡ false → IsOk result }
    {
        match self {
            Lock::Author(name) => Ok(Lock::Author(name.copy(alloc)?)),
            Lock::Kind(kind) => Ok(Lock::Kind(*kind)),
            Lock::Span(start, end) => Ok(Lock::Span(*start, *end)),
        }
    }

    /// Whether it is a lock on the revisions of an author.
    pub fn is_on_author(&self) -> bool
        ensures { result ≡ is_author self.now }
    {
        matches!(self, Lock::Author(_))
    }

    /// Whether it is a lock on the revisions of a kind.
    pub fn is_on_kind(&self) -> bool
        ensures { result ≡ is_kind self.now }
    {
        matches!(self, Lock::Kind(_))
    }
}
