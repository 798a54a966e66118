//! Entries by their reviewers, and revisions by their authors.

ghost use Rattle.std.specs.Prelude.{◌≡◌, All, IfOk, OnOk};
ghost use Rattle.redl_join.specs.Books.{IsBook};
ghost use Rattle.redl_journal.specs.Journals.{IsAllowed};
ghost use Rattle.redl_report.specs.Groups.{grouped, groups_in, with_item};
ghost use Rattle.redl_report.specs.Reports.{author_of, reviewer_of};

use redl_index::Revision;
use redl_join::Book;
use redl_journal::Entry;
use std::alloc::{AllocError, Global};
use std::collections::BTreeMap;

/// Things by the names of those they are by. The things with one name keep their order.
pub(crate) type Groups<'a, T> = BTreeMap<Vec<u8>, Vec<&'a T>>;

/// The entries of a book by their reviewers. They are in order, and a journal may hold each. `Err` means out of memory.
pub(crate) fn by_reviewer(alloc: Global, book: &Book) -> Result<Groups<'_, Entry>, AllocError>
    ensures groups { IfOk result (λ groups. groups_in groups ≡ grouped reviewer_of book.now) }
    ensures ordered { IsBook book.now }
    ensures allowed { All IsAllowed book.now }
{
    let mut groups = BTreeMap::new(alloc);
    for entry in book.entries() {
        add_item(alloc, &mut groups, entry.reviewer.as_bytes(), entry)?;
    }
    Ok(groups)
}

/// Revisions by their authors. `Err` means out of memory.
pub(crate) fn by_author(
    alloc: Global,
    revisions: &[Revision],
) -> Result<Groups<'_, Revision>, AllocError>
    ensures { IfOk result (λ groups. groups_in groups ≡ grouped author_of revisions.now) }
{
    let mut groups = BTreeMap::new(alloc);
    for revision in revisions {
        add_item(alloc, &mut groups, revision.author.as_bytes(), revision)?;
    }
    Ok(groups)
}

// Adds a thing at the end of the group of its name. `Err` means out of memory.
fn add_item<'a, T>(
    alloc: Global,
    groups: &mut Groups<'a, T>,
    name: &[u8],
    item: &'a T,
) -> Result<(), AllocError>
    ensures { OnOk result (groups_in groups.new ≡ with_item (groups_in groups.old) name.now item.now) }
{
    if let Some(others) = groups.get_mut(name) {
        others.push(item)?;
        return Ok(());
    }
    let name = Vec::from_slice(alloc, name)?;
    let mut first = Vec::new(alloc);
    first.push(item)?;
    groups.insert(name, first)?;
    Ok(())
}
