//! What nobody may decide.
ghost use Rattle.std.specs.Prelude.{◌≡◌, ◌&&◌};
ghost use Rattle.std.specs.List.{list_any};
ghost use Rattle.redl_kinds.specs.Locks.{is_author, is_kind};
ghost use Rattle.redl_select.specs.Locks.{holds};
ghost use Rattle.redl_session.specs.Bars.{bar_of};

use crate::refusal::Bar;
use redl_index::Revision;
use redl_kinds::Lock;
use redl_select::{any_holds, holds};
use std::marker::Model;

/// The locks of a session. Contracts see the list of them.
#[derive(Drop)]
pub struct Locks {
    locks: Vec<Lock>,
}

impl Model for Locks {
    ghost use Rattle.std.specs.Prelude.{List};
    ghost use Rattle.redl_kinds.specs.declared.lock.Lock.{Lock};

    ghost Value = { List Lock };

    ghost view = { λ locks. locks.locks.items };
}

impl Locks {
    /// These locks. One may come more than once.
    pub fn new(locks: Vec<Lock>) -> Locks
        ensures { result ≡ locks.items }
    {
        Locks { locks }
    }

    /// What bars the revision: its author where a lock on an author holds it, else its kind, else its moment. `None` if no lock
    /// holds it.
    pub fn bars(&self, revision: &Revision) -> Option<Bar>
        ensures { result ≡ bar_of self.now revision.now }
    {
        if holds_by_author(&self.locks, revision) {
            Some(Bar::Author)
        } else if holds_by_kind(&self.locks, revision) {
            Some(Bar::Kind)
        } else if any_holds(&self.locks, revision) {
            Some(Bar::Span)
        } else {
            None
        }
    }
}

// Whether one of these locks holds the revision by its author.
fn holds_by_author(locks: &[Lock], revision: &Revision) -> bool
    ensures { result ≡ list_any (λ lock. is_author lock && holds revision.now lock) locks.now }
{
    locks
        .iter()
        .any(|lock| lock.is_on_author() && holds(lock, revision))
}

// Whether one of these locks holds the revision by its kind.
fn holds_by_kind(locks: &[Lock], revision: &Revision) -> bool
    ensures { result ≡ list_any (λ lock. is_kind lock && holds revision.now lock) locks.now }
{
    locks
        .iter()
        .any(|lock| lock.is_on_kind() && holds(lock, revision))
}
