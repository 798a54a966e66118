//! The book of two sittings.

ghost use Rattle.std.specs.Prelude.{◌≡◌, IfOk, OnOk, if◌then◌else◌, option_to_list};
ghost use Rattle.redl_join.specs.Books.{union, with_entry};
ghost use Rattle.redl_join.specs.declared.verdict.Verdict.{Verdict};
ghost use Rattle.redl_sittings.specs.JoinedBooks.{decided, deciding, first_number, is_decided, joined_book, mapped_back, numbered_at, with_second};
ghost use Rattle.redl_journal.specs.Journals.{IsAllowed};

use redl_join::{Book, Verdict};
use redl_journal::Entry;
use std::alloc::{AllocError, Global};

/// The joined book of two sittings, for the first document: the entries of the first book on the revisions that it decides, and each
/// entry of the second book by the first number of its revision, where that has one.
///
/// `back` has the first number of each second number, and 0 for one that has none. `Err` means out of memory.
pub fn joined(
    alloc: Global,
    firsts: &Book,
    seconds: &Book,
    back: &[u32],
) -> Result<Book, AllocError>
    ensures { IfOk result (λ book. book ≡ joined_book firsts.now seconds.now back.now) }
{
    let mut book = decided(alloc, firsts)?;
    add_second(alloc, &mut book, seconds, back)?;
    Ok(book)
}

/// The first half of the joined book: the entries of a first sitting's book on the revisions that it decides. `Err` means out of
/// memory.
pub fn decided(alloc: Global, firsts: &Book) -> Result<Book, AllocError>
    ensures { IfOk result (λ book. book ≡ decided firsts.now) }
{
    let mut book = Book::new(alloc);
    add_deciding(alloc, &mut book, firsts)?;
    Ok(book)
}

// Adds the entries on the revisions that their book decides.
fn add_deciding(alloc: Global, book: &mut Book, firsts: &Book) -> Result<(), AllocError>
    ensures { OnOk result (book.new ≡ union book.old (deciding firsts.now)) }
{
    for entry in firsts.entries() {
        let verdict = firsts.verdict(entry.rev);
        add_decided(alloc, book, entry, verdict)?;
    }
    Ok(())
}

// Adds a copy of the entry, if this verdict on its revision decides.
fn add_decided(
    alloc: Global,
    book: &mut Book,
    entry: &Entry,
    verdict: Verdict,
) -> Result<(), AllocError>
    requires { IsAllowed entry.now }
    ensures { OnOk result (book.new ≡ (if is_decided verdict then with_entry book.old entry.now else book.old)) }
{
    if !is_decided(verdict) {
        return Ok(());
    }
    let copy = entry.copy(alloc)?;
    book.add(copy)?;
    Ok(())
}

fn is_decided(verdict: Verdict) -> bool
    ensures { result ≡ is_decided verdict }
{
    match verdict {
        Verdict::Accept | Verdict::Reject => true,
        Verdict::Undecided | Verdict::Disputed => false,
    }
}

/// Adds the second half of the joined book: each entry of a second sitting's book by the first number of its revision, where that
/// has one. `Err` means out of memory, and some of them may be there.
pub fn add_second(
    alloc: Global,
    book: &mut Book,
    seconds: &Book,
    back: &[u32],
) -> Result<(), AllocError>
    ensures { OnOk result (book.new ≡ with_second book.old seconds.now back.now) }
{
    for entry in seconds.entries() {
        add_mapped(alloc, book, entry, back)?;
    }
    Ok(())
}

// Adds the entry by the first number of its revision, where that has one.
fn add_mapped(alloc: Global, book: &mut Book, entry: &Entry, back: &[u32]) -> Result<(), AllocError>
    requires { IsAllowed entry.now }
    ensures { OnOk result (book.new ≡ union book.old (option_to_list (mapped_back back.now entry.now))) }
{
    let Some(rev) = first_number(back, entry.rev) else {
        return Ok(());
    };
    let copy = entry_on(alloc, entry, rev)?;
    book.add(copy)?;
    Ok(())
}

// A copy of the entry that is on this revision.
fn entry_on(alloc: Global, entry: &Entry, rev: u32) -> Result<Entry, AllocError>
    ensures { IfOk result (λ copy. copy ≡ record entry.now { rev = rev }) }
{
    let mut copy = entry.copy(alloc)?;
    copy.rev = rev;
    Ok(copy)
}

// The first number of a second one, where it has one.
fn first_number(back: &[u32], rev: u32) -> Option<u32>
    ensures { result ≡ first_number (numbered_at back.now rev) }
{
    match numbered_at(back, rev) {
        Some(0) => None,
        number => number,
    }
}

// The item for a second number.
fn numbered_at(back: &[u32], rev: u32) -> Option<u32>
    ensures { result ≡ numbered_at back.now rev }
{
    if rev == 0 {
        return None;
    }
    back.get(rev as usize - 1).copied()
}
