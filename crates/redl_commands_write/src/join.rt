//! `join J ..`: one journal of several journals of one document.

ghost use Rattle.std.specs.Prelude.{◌≡◌, ◌≢◌, ◌∷◌, [], All, IsUtf8, IfOk};
ghost use Rattle.redl_commands.specs.Join.{document_in, joined};
ghost use Rattle.redl_inputs.specs.Asking.{files_within};
ghost use Rattle.redl_inputs.specs.Reading.{ReadsFiles};
ghost use Rattle.redl_commands.specs.Views.{writing_view};
ghost use Rattle.redl_inputs.specs.Views.{document_view, result_view};
ghost use Rattle.redl_io.specs.Limits.{journal_bytes};
ghost use Rattle.redl_join.specs.Books.{union};
ghost use Rattle.redl_journal.specs.Journals.{IsAllowed};
ghost use Rattle.redl_journal.specs.Views.{journal_of};

use redl_commands::{Output, Writing};
use redl_inputs::{DocumentId, JOURNALS_LIMIT, add_entries, join_journals, name_of, read_first};
use redl_io::{Shelf, Text};
use redl_join::Book;
use redl_journal::Journal;
use redl_lines::Failure;
use std::alloc::{AllocError, Global};

/// The journal of the union of the journals of these names, which are of the first one's document.
pub fn join_files<'a, 'b, F: Shelf>(
    alloc: Global,
    journals: &'a [Text],
    shelf: &mut F,
) -> Result<Writing<'b>, Failure<'a>>
    requires utf8 { All IsUtf8 journals.now }
    requires some { journals.now ≢ [] }
    ensures { ReadsFiles F.told F.faults F.asked shelf.old shelf.new (files_within journal_bytes journals.now)
        (result_view writing_view result) (λ reader files. joined reader files journal_bytes journals.now) }
{
    match journals {
        [first, rest @ ..] => join_to(alloc, name_of(first), rest, shelf),
        [] => unreachable!(),
    }
}

// The journal of the union of the journal of this name with the others.
fn join_to<'a, 'b, F: Shelf>(
    alloc: Global,
    name: &'a str,
    others: &'a [Text],
    shelf: &mut F,
) -> Result<Writing<'b>, Failure<'a>>
    requires { All IsUtf8 others.now }
    ensures { ReadsFiles F.told F.faults F.asked shelf.old shelf.new (files_within journal_bytes (name.now ∷ others.now))
        (result_view writing_view result) (λ reader files. joined reader files journal_bytes (name.now ∷ others.now)) }
{
    let (journal, size) = read_first(alloc, name, JOURNALS_LIMIT, shelf)?;
    let started = start(alloc, journal)?;
    let left = JOURNALS_LIMIT - size;
    let book = join_journals(alloc, started.document, others, left, started.book, shelf)?;
    Ok(Writing::only(
        alloc,
        Output::Journal {
            document: started.document,
            book,
        },
    ))
}

// The document of a journal, and the set of its entries.
#[derive(Drop)]
struct Started {
    document: DocumentId,
    book: Book,
}

fn start(alloc: Global, journal: Journal) -> Result<Started, AllocError>
    requires { All IsAllowed journal.entries.items }
    ensures document { IfOk result (λ started. document_view started.document ≡ document_in (journal_of journal)) }
    ensures book { IfOk result (λ started. started.book ≡ union [] journal.entries.items) }
{
    let Journal {
        digest,
        count,
        entries,
    } = journal;
    let document = DocumentId { digest, count };
    let mut book = Book::new(alloc);
    add_entries(&mut book, entries)?;
    Ok(Started { document, book })
}
