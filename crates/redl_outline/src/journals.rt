//! Small journals of tests, each written as the lines of its entries, and books of them.
//!
//! In goes `1\t1\taccept\tAnn\n` and so on; out comes the text of a journal of three revisions of the empty file. Read `entries_of`
//! first. No contract says what is made here, but that a session may take the entries.

ghost use Rattle.std.specs.Prelude.{All, IfOk};
ghost use Rattle.redl_journal.specs.Journals.{IsAllowed};

use redl_join::Book;
use redl_journal::{Entry, JournalError, read};
use std::alloc::{AllocError, Global};

const HEAD: &[u8] =
    b"redline-journal 1\ndocument e3b0c44298fc1c149afbf4c8996fb92427ae41e4649b934ca495991b7852b855\nrevisions 3\n";

// The same of version 2, whose entries have ranks.
const RANKED: &[u8] =
    b"redline-journal 2\ndocument e3b0c44298fc1c149afbf4c8996fb92427ae41e4649b934ca495991b7852b855\nrevisions 3\n";

/// The text of a journal with these lines, which have ranks if the first one has.
pub fn journal_text(alloc: Global, lines: &[u8]) -> Result<Vec<u8>, AllocError> {
    let head = if has_ranks(lines) { RANKED } else { HEAD };
    let mut text = Vec::from_slice(alloc, head)?;
    text.extend_from_slice(lines)?;
    Ok(text)
}

// Whether the first line has four tabs.
fn has_ranks(lines: &[u8]) -> bool {
    let mut tabs = 0_u32;
    for byte in lines {
        if *byte == b'\n' {
            break;
        }
        if *byte == b'\t' {
            tabs = tabs.saturating_add(1);
        }
    }
    tabs == 4
}

/// The entries of a journal with these lines.
pub fn entries_of(alloc: Global, lines: &[u8]) -> Result<Vec<Entry>, JournalError>
    ensures { IfOk result (λ entries. All IsAllowed entries.items) }
{
    let text = journal_text(alloc, lines)?;
    let journal = read(alloc, &text)?;
    Ok(journal.entries)
}

/// Adds the entries of a journal with these lines to a book.
pub fn add_entries(alloc: Global, book: &mut Book, lines: &[u8]) -> Result<(), JournalError> {
    for entry in entries_of(alloc, lines)? {
        book.add(entry)?;
    }
    Ok(())
}

/// The book of the entries of a journal with these lines.
pub fn book_of(alloc: Global, lines: &[u8]) -> Result<Book, JournalError> {
    let mut book = Book::new(alloc);
    add_entries(alloc, &mut book, lines)?;
    Ok(book)
}
