//! Which entries a book takes in.
ghost use Rattle.std.specs.Prelude.{◌≡◌, ◌<◌, ◌≤◌, All, IfOk, IfNone, OnOk, OnErr, length, not};
ghost use Rattle.redl_join.specs.Books.{has_entry, union, with_entry};
ghost use Rattle.redl_journal.specs.Journals.{IsAllowed};
ghost use Rattle.redl_session.specs.Refusals.{cause_of, admitted, refusals, TakesFirst};

use crate::locks::Locks;
use crate::refusal::{AdmitError, Refusal};
use redl_index::Index;
use redl_join::Book;
use redl_journal::Entry;
use std::alloc::{AllocError, Global};

/// Why the entry is refused. `None` if it is not.
pub fn cause(index: &Index, locks: &Locks, entry: &Entry) -> Option<AdmitError>
    ensures cause { result ≡ cause_of index.now locks.now entry.now }
    ensures known { IfNone result ((0 < entry.now.rev) × (entry.now.rev ≤ length index.now)) }
{
    let Some(revision) = index.get(entry.rev) else {
        return Some(AdmitError::Unknown);
    };
    locks.bars(revision).map(AdmitError::Locked)
}

/// Adds a copy of the entry, and says whether it is new. `Err` means out of memory, and the book is as it was.
pub fn add_copy(alloc: Global, book: &mut Book, entry: &Entry) -> Result<bool, AllocError>
    requires { IsAllowed entry.now }
    ensures added { OnOk result (book.new ≡ with_entry book.old entry.now) }
    ensures was_new { IfOk result (λ new. new ≡ not (has_entry book.old entry.now)) }
    ensures untouched { OnErr result (book.new ≡ book.old) }
{
    let copy = entry.copy(alloc)?;
    book.add(copy)
}

/// Adds the entries that are not refused, and gives the others. `Err` means out of memory: only a first part of the entries
/// was taken in.
pub fn take_in(
    alloc: Global,
    index: &Index,
    locks: &Locks,
    book: &mut Book,
    entries: Vec<Entry>,
) -> Result<Vec<Refusal>, AllocError>
    requires { All IsAllowed entries.items }
    ensures book { OnOk result (book.new ≡ union book.old (admitted index.now locks.now entries.items)) }
    ensures refused { IfOk result (λ refused. refused.items ≡ refusals index.now locks.now entries.items) }
    ensures stopped { OnErr result (TakesFirst index.now locks.now book.old book.new entries.items) }
{
    let mut refused = Vec::new(alloc);
    for entry in entries {
        match cause(index, locks, &entry) {
            Some(why) => refused.push(Refusal { entry, why })?,
            None => {
                book.add(entry)?;
            }
        }
    }
    Ok(refused)
}
