//! The journals of a call: the entries of each, or why it is refused.

ghost use Rattle.std.specs.Prelude.{◌≡◌, ◌<◌, ◌≤◌, ◌^◌, ◌∷◌, [], All, IsUtf8, IfOk, OnOk, Some};
ghost use Rattle.redl_inputs.specs.Admission.{admission_left};
ghost use Rattle.redl_inputs.specs.Asking.{file_within, files_within};
ghost use Rattle.redl_inputs.specs.Journals.{entries_of, first_journal, journal_at, journal_failure, journal_or_none, union_with};
ghost use Rattle.redl_inputs.specs.Reading.{ReadsFiles, ReadsText};
ghost use Rattle.redl_inputs.specs.Views.{admission_view, document_view, known_view, result_view};
ghost use Rattle.redl_lines.specs.Failures.{failure_view};
ghost use Rattle.redl_join.specs.Books.{union};
ghost use Rattle.redl_journal.specs.Journals.{IsAllowed};
ghost use Rattle.redl_journal.specs.Views.{journal_of};

use crate::admitted::Admitted;
use crate::document::DocumentId;
use crate::fetch::{fetch_file, name_of};
use redl_io::{Shelf, Text};
use redl_join::Book;
use redl_journal::{Entry, Journal, JournalError, read};
use redl_lines::{Cause, Failure, Limit};
use std::alloc::{AllocError, Global};

/// The most bytes that all journals of a call may have together.
pub const JOURNALS_LIMIT: usize = 67_108_864;

/// What becomes of the entries of the journals of these names, which are of the session's document. All journals together have
/// at most `limit` bytes. Also how many bytes may still come of other journals.
pub fn admit_journals<'a, 'b, F: Shelf>(
    alloc: Global,
    document: DocumentId,
    journals: &'a [Text],
    limit: usize,
    before: Admitted<'b>,
    shelf: &mut F,
) -> Result<(Admitted<'b>, usize), Failure<'a>>
    requires utf8 { All IsUtf8 journals.now }
    requires limit { limit < 2 ^ 32 }
    requires document { document_view document ≡ known_view before.document }
    ensures read { ReadsFiles F.told F.faults F.asked shelf.old shelf.new (files_within limit journals.now)
        (result_view (λ x. (admission_view x.0, x.1)) result) (λ reader files. admission_left reader files (admission_view before.entry) limit journals.now) }
    ensures within { IfOk result (λ x. x.1 ≤ limit) }
    ensures nodes { IfOk result (λ x. x.0.session.nodes ≡ before.entry.session.nodes) }
    ensures revisions { IfOk result (λ x. x.0.session.revisions ≡ before.entry.session.revisions) }
{
    let mut admitted = before;
    let mut left = limit;
    for journal in journals {
        let (entries, size) = read_journal(alloc, document, name_of(journal), left, shelf)?;
        left -= size;
        admitted.admit(entries)?;
    }
    Ok((admitted, left))
}

/// The book with the entries of the journals of these names too, which are of one document. All journals together have at
/// most `limit` bytes.
pub fn join_journals<'a, F: Shelf>(
    alloc: Global,
    document: DocumentId,
    journals: &'a [Text],
    limit: usize,
    before: Book,
    shelf: &mut F,
) -> Result<Book, Failure<'a>>
    requires utf8 { All IsUtf8 journals.now }
    requires limit { limit < 2 ^ 32 }
    ensures { ReadsFiles F.told F.faults F.asked shelf.old shelf.new (files_within limit journals.now)
        (result_view (λ book. book) result) (λ reader files. union_with reader files (document_view document) limit before journals.now) }
{
    let mut book = before;
    let mut left = limit;
    for journal in journals {
        let (entries, size) = read_journal(alloc, document, name_of(journal), left, shelf)?;
        left -= size;
        add_entries(&mut book, entries)?;
    }
    Ok(book)
}

/// Adds the entries to the book. `Err` means out of memory, and some of them may be there.
pub fn add_entries(book: &mut Book, entries: Vec<Entry>) -> Result<(), AllocError>
    requires { All IsAllowed entries.items }
    ensures { OnOk result (book.new ≡ union book.old entries.items) }
{
    for entry in entries {
        book.add(entry)?;
    }
    Ok(())
}

/// The first of some journals, of at most `most` bytes, and how many bytes it has.
pub fn read_first<'a, F: Shelf>(
    alloc: Global,
    name: &'a str,
    most: usize,
    shelf: &mut F,
) -> Result<(Journal, usize), Failure<'a>>
    requires { most < 2 ^ 32 }
    ensures read { ReadsFiles F.told F.faults F.asked shelf.old shelf.new (file_within most name.now ∷ [])
        (result_view (λ x. (journal_of x.0, x.1)) result) (λ reader files. first_journal reader files most name.now) }
    ensures allowed { IfOk result (λ x. All IsAllowed x.0.entries.items) }
    ensures within { IfOk result (λ x. x.1 ≤ most) }
{
    let bytes = fetch_file(alloc, name, most, Limit::JournalBytes, shelf)?;
    let journal = parse(alloc, name, &bytes)?;
    Ok((journal, bytes.len()))
}

// The entries of the journal of this name, of at most `left` bytes, and how many bytes it has.
fn read_journal<'a, F: Shelf>(
    alloc: Global,
    document: DocumentId,
    name: &'a str,
    left: usize,
    shelf: &mut F,
) -> Result<(Vec<Entry>, usize), Failure<'a>>
    requires { left < 2 ^ 32 }
    ensures read { ReadsFiles F.told F.faults F.asked shelf.old shelf.new (file_within left name.now ∷ [])
        (result_view (λ x. (x.0.items, x.1)) result) (λ reader files. journal_at reader files (document_view document) left name.now) }
    ensures allowed { IfOk result (λ x. All IsAllowed x.0.items) }
    ensures within { IfOk result (λ x. x.1 ≤ left) }
{
    let bytes = fetch_file(alloc, name, left, Limit::JournalBytes, shelf)?;
    let entries = read_entries(alloc, document, name, &bytes)?;
    Ok((entries, bytes.len()))
}

// The entries of the journal with this text.
fn read_entries<'a>(
    alloc: Global,
    document: DocumentId,
    name: &'a str,
    bytes: &[u8],
) -> Result<Vec<Entry>, Failure<'a>>
    ensures read { ReadsText (Some name.now) (result_view (λ entries. entries.items) result) (λ reader. entries_of (document_view document) name.now (reader.journal bytes.now)) }
    ensures allowed { IfOk result (λ entries. All IsAllowed entries.items) }
{
    let journal = parse(alloc, name, bytes)?;
    if journal.digest != document.digest {
        return Err(Failure::Cause(Cause::OtherDocument {
            journal: name,
            found: journal.digest,
            expected: document.digest,
        }));
    }
    if journal.count != document.count {
        return Err(Failure::Cause(Cause::OtherCount {
            journal: name,
            found: journal.count,
            expected: document.count,
        }));
    }
    Ok(journal.entries)
}

// The journal with this text.
fn parse<'a>(alloc: Global, name: &'a str, bytes: &[u8]) -> Result<Journal, Failure<'a>>
    ensures read { ReadsText (Some name.now) (result_view (λ journal. journal_of journal) result) (λ reader. journal_or_none name.now (reader.journal bytes.now)) }
    ensures allowed { IfOk result (λ journal. All IsAllowed journal.entries.items) }
{
    match read(alloc, bytes) {
        Ok(journal) => Ok(journal),
        Err(error) => Err(unread_journal(name, error)),
    }
}

// Why a call ends where the journal of this name was not read.
fn unread_journal<'a>(name: &'a str, error: JournalError) -> Failure<'a>
    ensures { failure_view result ≡ journal_failure name.now error }
{
    match error {
        JournalError::Malformed => Failure::Cause(Cause::Malformed(name)),
        JournalError::NoMemory => Failure::NoMemory,
    }
}
