//! From one book to another: a copy to begin with, and what the second one says otherwise.

ghost use Rattle.std.specs.Prelude.{◌≡◌, length, map, IfOk};
ghost use Rattle.redl_editor.specs.Changes.{setting_of};
ghost use Rattle.redl_session.specs.Says.{says_of};
ghost use Rattle.redl_tree.specs.Leaves.Settings.{set_each};

use redl_editor::Change;
use redl_join::Book;
use redl_session::{add_copy, say_of};
use redl_tree::Say;
use std::alloc::{AllocError, Global};

/// A copy of the book. `Err` means out of memory.
pub(crate) fn copy_of(alloc: Global, book: &Book) -> Result<Book, AllocError>
    ensures { IfOk result (λ copy. copy ≡ book.now) }
{
    let mut copy = Book::new(alloc);
    for entry in book.entries() {
        add_copy(alloc, &mut copy, entry)?;
    }
    Ok(copy)
}

/// The revisions of which these says are not those of the book's verdicts, each with the say of its verdict. `Err` means out of
/// memory.
pub(crate) fn changes_to(
    alloc: Global,
    book: &Book,
    says: &[Say],
    count: u32,
) -> Result<Vec<Change>, AllocError>
    requires { length says.now ≡ count }
    ensures { IfOk result (λ changes. set_each says.now (map setting_of changes.items) ≡ says_of book.now count) }
{
    let mut changes = Vec::new(alloc);
    for before in 0..count {
        let rev = before + 1;
        let say = say_of(book.verdict(rev));
        if say != says[before as usize] {
            changes.push(Change { rev, say })?;
        }
    }
    Ok(changes)
}
