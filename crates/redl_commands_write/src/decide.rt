//! `decide P REVIEWER` with choices.

ghost use Rattle.std.specs.Prelude.{◌≡◌, ◌≤◌, All, IsUtf8};
ghost use Rattle.redl_commands.specs.Decide.{book_written, chosen_journal, with_choices};
ghost use Rattle.redl_inputs.specs.Asking.{files_within};
ghost use Rattle.redl_inputs.specs.Reading.{Reads, ReadsFiles};
ghost use Rattle.redl_commands.specs.Views.{writing_view};
ghost use Rattle.redl_inputs.specs.Views.{admission_view, result_view};
ghost use Rattle.redl_io.specs.Limits.{journal_bytes};
ghost use Rattle.redl_journal.specs.Journals.{IsReviewer};
ghost use Rattle.redl_words.specs.Views.{choices_view};

use crate::choices::choose_entries;
use redl_commands::{Output, Writing};
use redl_inputs::{Admitted, open};
use redl_io::{Shelf, Text};
use redl_journal::Word;
use redl_kinds::Selection;
use redl_lines::{Cause, Failure};
use redl_words::DecideCommand;
use std::alloc::Global;

/// The journal of what the command's reviewer chooses on the package with this text, with its rank and its locks, and of the
/// entries of its journals. `NoSequence` comes where an entry of the reviewer's was admitted that has the greatest sequence number
/// there is.
pub fn decide_package<'a, 'b, F: Shelf>(
    alloc: Global,
    command: &'a DecideCommand,
    bytes: &'b [u8],
    shelf: &mut F,
) -> Result<Writing<'b>, Failure<'a>>
    requires reviewer { IsReviewer command.now.reviewer }
    requires rank { command.now.rank ≤ 9 }
    requires journals { All IsUtf8 command.now.journals.items }
    ensures { ReadsFiles F.told F.faults F.asked shelf.old shelf.new (files_within journal_bytes command.now.journals.items)
        (result_view writing_view result) (λ reader files. chosen_journal reader files command.now.reviewer command.now.rank command.now.locks.items command.now.journals.items (choices_view command.now.choices.items) bytes.now) }
{
    let mut admitted = open(alloc, &command.locks, &command.journals, bytes, shelf)?;
    admit_choices(
        alloc,
        &command.reviewer,
        command.rank,
        &command.choices,
        &mut admitted,
    )?;
    Ok(write_book(admitted))
}

// Admits what the reviewer chooses.
fn admit_choices<'a, 'b>(
    alloc: Global,
    reviewer: &'a Text,
    rank: u8,
    choices: &[(Word, Selection)],
    admitted: &mut Admitted<'b>,
) -> Result<(), Failure<'a>>
    requires reviewer { IsReviewer reviewer.now }
    requires rank { rank ≤ 9 }
    ensures { Reads (result_view (λ _. admission_view admitted.new) result) (λ _. with_choices reviewer.now rank (choices_view choices.now) (admission_view admitted.old)) }
{
    let greatest = admitted.session.book().greatest(reviewer.as_bytes());
    let Some(seq) = greatest.checked_add(1) else {
        return Err(Failure::Cause(Cause::NoSequence(reviewer.as_bytes())));
    };
    let entries = choose_entries(alloc, &admitted.session, reviewer, rank, seq, choices)?;
    admitted.admit(entries)?;
    Ok(())
}

// The journal of the session's book.
fn write_book(admitted: Admitted) -> Writing
    ensures { writing_view result ≡ book_written (admission_view admitted.entry) }
{
    let Admitted {
        document,
        session,
        remarks,
    } = admitted;
    let mut document = document;
    Writing {
        output: Output::Journal {
            document: document.id(),
            book: session.into_book(),
        },
        remarks,
    }
}
