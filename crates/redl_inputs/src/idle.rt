//! Locks that hold nothing.

ghost use Rattle.std.specs.Prelude.{◌≡◌, IfOk};
ghost use Rattle.redl_inputs.specs.Idle.{idle_locks as idle_locks_of, holds_some as holds_some_of};

use redl_index::{Index, Revision};
use redl_kinds::Lock;
use redl_select::holds;
use std::alloc::{AllocError, Global};

/// Copies of the locks that hold no revision, in their order.
pub(crate) fn idle_locks(
    alloc: Global,
    index: &Index,
    locks: &[Lock],
) -> Result<Vec<Lock>, AllocError>
    ensures { IfOk result (λ idle. idle.items ≡ idle_locks_of index.now locks.now) }
{
    let mut idle = Vec::new(alloc);
    for lock in locks {
        if !holds_some(index.revisions(), lock) {
            idle.push(lock.copy(alloc)?)?;
        }
    }
    Ok(idle)
}

// Whether the lock holds some revision.
fn holds_some(revisions: &[Revision], lock: &Lock) -> bool
    ensures { result ≡ holds_some_of revisions.now lock.now }
{
    revisions.iter().any(|revision| holds(lock, revision))
}
