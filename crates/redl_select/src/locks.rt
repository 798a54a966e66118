//! The revisions that a lock holds.

ghost use Rattle.std.specs.Prelude.{◌≡◌};
ghost use Rattle.std.specs.List.{list_any};
ghost use Rattle.redl_select.specs.Locks.{holds};

use crate::chosen::is_within;
use redl_index::Revision;
use redl_kinds::Lock;

/// Whether the lock holds this revision.
pub fn holds(lock: &Lock, revision: &Revision) -> bool
    ensures { result ≡ holds revision.now lock.now }
{
    match lock {
        Lock::Author(name) => revision.author.as_bytes() == name.as_bytes(),
        Lock::Kind(kind) => revision.kind == *kind,
        Lock::Span(start, end) => is_within(*start, *end, revision.seconds),
    }
}

/// Whether one of these locks holds this revision.
pub fn any_holds(locks: &[Lock], revision: &Revision) -> bool
    ensures { result ≡ list_any (λ lock. holds revision.now lock) locks.now }
{
    locks.iter().any(|lock| holds(lock, revision))
}
