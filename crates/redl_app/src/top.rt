//! The top call: from words and files to a status, bytes and lines.
//!
//! `run` makes one word of what is brought, `run_by` reads the words, `end_of_words` ends a call by them, and `end_of_command` looks
//! for the format, fetches the package, and has the command carried out.

ghost use Rattle.std.specs.Prelude.{◌≡◌, ◌≢◌, ◌⊎◌, ◌↔◌, [], All, IfErr, IfOk, IsUtf8, Ok, Result};
ghost use Rattle.redl_outcome.specs.Answers.{AreLines, AreMisused, Asks, IsAnswer, LacksFormat, MayFault, OfOutcome, TellsSome, Writes};
ghost use Rattle.redl_outcome.specs.Files.{files_of};
ghost use Rattle.redl_outcome.specs.Words.{IsWanted, named_files, read_view, words_failure};
ghost use Rattle.redl_commands.specs.Endings.{Ends};
ghost use Rattle.redl_outcome.specs.Brought.{brought_by};
ghost use Rattle.redl_commands_shown.specs.Formats.{AreFresh, LeavesFormats, without_asked};
ghost use Rattle.redl_outcome.specs.Left.{Leaves};
ghost use Rattle.redl_outcome.specs.Sittings.{Resumes};
ghost use Rattle.redl_outcome.specs.Outcome.{carried_out, outcome};
ghost use Rattle.redl_outcome.specs.Plans.{plan};
ghost use Rattle.redl_commands.specs.Writing.{Writing as WritingOf};
ghost use Rattle.redl_inputs.specs.Readers.{IsReader, Reader};
ghost use Rattle.redl_io.specs.Faults.{Rose};
ghost use Rattle.redl_io.specs.MemShelf.{file_named};
ghost use Rattle.redl_io.specs.Shelf.{Files};
ghost use Rattle.redl_lines.specs.Ends.{Tells, call_end_view, end_status, failed};
ghost use Rattle.redl_lines.specs.Failures.{Failure as FailureOf, failure_status};
ghost use Rattle.redl_lines.specs.Lines.{failure_line};
ghost use Rattle.redl_words.specs.Commands.{Command as CommandOf, HasNoCommand, HasUtf8, IsCommand};
ghost use Rattle.redl_words.specs.Views.{command_of};

use crate::brings::{Bringing, Brings};
use crate::commands::{Found, carry_out};
use crate::plan::package;
use redl_inputs::fetch_package;
use redl_io::{NullSink, Shelf, Sink, SureShelf, Text};
use redl_lines::{CallEnd, End, Failure, Misuse, Status, tell};
use redl_listing::RowFormat;
use redl_page::Skin;
use redl_report::ReportFormat;
use redl_words::{Command, WordsError, read_words};
use std::alloc::Global;
use std::mem::replace;

/// Does what the words ask: takes files from the shelf, puts bytes on `out` and lines on `err`.
///
/// A command that asks for a format takes the first one with the name out of its list, `list` out of `formats` and `report` out of
/// `reports`. No format of the lists is closed or has a row or a line.
/// `out` gains the bytes of the call's outcome with `Done` and `Refused`, a prefix of them with `WriteFault`, and nothing
/// with any other status. A fault of `err` changes no status. An allocation may fail wherever memory is taken, and then
/// nothing was put on `out`.
pub fn run<F: Shelf, O: Sink, E: Sink>(
    alloc: Global,
    words: &[Text],
    shelf: &mut F,
    out: &mut O,
    err: &mut E,
    formats: &mut Vec<Box<dyn RowFormat>>,
    reports: &mut Vec<Box<dyn ReportFormat>>,
    skin: &Skin<'_>,
) -> Status
    requires utf8 { All IsUtf8 words.now }
    requires fresh { AreFresh is_closed rows_so_far formats.old.items }
    requires fresh_reports { AreFresh is_ended lines_so_far reports.old.items }

    // Where the shelf tells, or the words ask for no file, the status is the outcome's, but for what the outside forces.
    ensures status { OfOutcome (F.told shelf.old) words.now
        (brought_by format_name text_for formats.old.items report_name report_text reports.old.items skin.now)
        (λ outcome. IsAnswer result outcome (Rose (F.faults shelf.old) (F.faults shelf.new)) (Rose (O.faults out.old) (O.faults out.new))) }

    // Over every shelf.
    ensures usage { AreMisused words.now
        (brought_by format_name text_for formats.old.items report_name report_text reports.old.items skin.now)
        → (result ≡ Status.Usage) ⊎ (result ≡ Status.NoMemory) }
    ensures only_usage { result ≡ Status.Usage → AreMisused words.now
        (brought_by format_name text_for formats.old.items report_name report_text reports.old.items skin.now) }
    ensures read { result ≡ Status.ReadFault → MayFault words.now
        (brought_by format_name text_for formats.old.items report_name report_text reports.old.items skin.now)
        (F.told shelf.old) (Rose (F.faults shelf.old) (F.faults shelf.new)) }
    ensures write { result ≡ Status.WriteFault → Rose (O.faults out.old) (O.faults out.new) }

    // A command asks for the first ones of its files, in their order, each once and up to one byte over its limit: for all of them
    // where its output was put. The line of a read fault or of a refused journal tells the last name. Other words ask for none.
    ensures asked { (command : CommandOf) → IsCommand words.now command → Asks (F.asked shelf.old) (F.asked shelf.new)
        (files_of (brought_by format_name text_for formats.old.items report_name report_text reports.old.items skin.now) (plan command))
        result (Tells E.told E.faults err.old err.new) }
    ensures unasked { HasNoCommand words.now → F.asked shelf.new ≡ F.asked shelf.old }

    // No fault is passed over, and nothing is taken from the shelf.
    ensures shelf_stands { result ≢ Status.ReadFault → F.faults shelf.new ≡ F.faults shelf.old }
    ensures out_stands { result ≢ Status.WriteFault → O.faults out.new ≡ O.faults out.old }
    ensures same_files { F.told shelf.new ≡ F.told shelf.old }

    // The list of formats loses at most the one that the command asks for.
    ensures taken { (command : CommandOf) → IsCommand words.now command → LeavesFormats result
        (without_asked format_name (plan command).format formats.old.items) formats.old.items formats.new.items }
    ensures no_format { HasNoCommand words.now → formats.new.items ≡ formats.old.items }
    ensures taken_report { (command : CommandOf) → IsCommand words.now command → LeavesFormats result
        (without_asked report_name (plan command).report reports.old.items) reports.old.items reports.new.items }
    ensures no_report { HasNoCommand words.now → reports.new.items ≡ reports.old.items }

    // What went out.
    ensures bytes { OfOutcome (F.told shelf.old) words.now
        (brought_by format_name text_for formats.old.items report_name report_text reports.old.items skin.now)
        (λ outcome. Writes O.told out.old out.new result outcome.bytes) }
    ensures left { Leaves result (F.told shelf.old) words.now
        (brought_by format_name text_for formats.old.items report_name report_text reports.old.items skin.now) }
    ensures resumes { Resumes result (F.told shelf.old) words.now
        (brought_by format_name text_for formats.old.items report_name report_text reports.old.items skin.now) }
    ensures untouched { result ≢ Status.Done → result ≢ Status.Refused → result ≢ Status.WriteFault → O.told out.new ≡ O.told out.old }
    ensures lines { OfOutcome (F.told shelf.old) words.now
        (brought_by format_name text_for formats.old.items report_name report_text reports.old.items skin.now)
        (λ outcome. TellsSome E.told E.faults err.old err.new
        (AreLines result outcome words.now
        (brought_by format_name text_for formats.old.items report_name report_text reports.old.items skin.now)
        (Rose (F.faults shelf.old) (F.faults shelf.new)))) }
{
    let mut bringing = Bringing {
        formats: replace(formats, Vec::new(alloc)),
        reports: replace(reports, Vec::new(alloc)),
        skin: *skin,
    };
    let status = run_by(alloc, words, shelf, out, err, &mut bringing);
    *formats = bringing.formats;
    *reports = bringing.reports;
    status
}

/// The same with what is brought as one word.
pub(crate) fn run_by<F: Shelf, O: Sink, E: Sink, B: Brings>(
    alloc: Global,
    words: &[Text],
    shelf: &mut F,
    out: &mut O,
    err: &mut E,
    brings: &mut B,
) -> Status
    requires utf8 { All IsUtf8 words.now }
    requires fresh { B.is_fresh brings.old }

    // Where the shelf tells, or the words ask for no file, the status is the outcome's, but for what the outside forces.
    ensures status { OfOutcome (F.told shelf.old) words.now (B.brought brings.old)
        (λ outcome. IsAnswer result outcome (Rose (F.faults shelf.old) (F.faults shelf.new)) (Rose (O.faults out.old) (O.faults out.new))) }

    // Over every shelf.
    ensures usage { AreMisused words.now (B.brought brings.old) → (result ≡ Status.Usage) ⊎ (result ≡ Status.NoMemory) }
    ensures only_usage { result ≡ Status.Usage → AreMisused words.now (B.brought brings.old) }
    ensures read { result ≡ Status.ReadFault → MayFault words.now (B.brought brings.old)
        (F.told shelf.old) (Rose (F.faults shelf.old) (F.faults shelf.new)) }
    ensures write { result ≡ Status.WriteFault → Rose (O.faults out.old) (O.faults out.new) }

    // A command asks for the first ones of its files, in their order, each once and up to one byte over its limit: for all of them
    // where its output was put. The line of a read fault or of a refused journal tells the last name. Other words ask for none.
    ensures asked { (command : CommandOf) → IsCommand words.now command → Asks (F.asked shelf.old) (F.asked shelf.new)
        (files_of (B.brought brings.old) (plan command)) result (Tells E.told E.faults err.old err.new) }
    ensures unasked { HasNoCommand words.now → F.asked shelf.new ≡ F.asked shelf.old }

    // No fault is passed over, and nothing is taken from the shelf.
    ensures shelf_stands { result ≢ Status.ReadFault → F.faults shelf.new ≡ F.faults shelf.old }
    ensures out_stands { result ≢ Status.WriteFault → O.faults out.new ≡ O.faults out.old }
    ensures same_files { F.told shelf.new ≡ F.told shelf.old }

    // The list of formats loses at most the one that the command asks for.
    ensures taken { (command : CommandOf) → IsCommand words.now command → LeavesFormats result
        (without_asked B.format_title (plan command).format (B.formats brings.old)) (B.formats brings.old) (B.formats brings.new) }
    ensures taken_report { (command : CommandOf) → IsCommand words.now command → LeavesFormats result
        (without_asked B.report_title (plan command).report (B.reports brings.old)) (B.reports brings.old) (B.reports brings.new) }
    ensures no_format { HasNoCommand words.now → B.formats brings.new ≡ B.formats brings.old }
    ensures no_report { HasNoCommand words.now → B.reports brings.new ≡ B.reports brings.old }

    // What went out.
    ensures bytes { OfOutcome (F.told shelf.old) words.now (B.brought brings.old)
        (λ outcome. Writes O.told out.old out.new result outcome.bytes) }
    ensures left { Leaves result (F.told shelf.old) words.now (B.brought brings.old) }
    ensures resumes { Resumes result (F.told shelf.old) words.now (B.brought brings.old) }
    ensures untouched { result ≢ Status.Done → result ≢ Status.Refused → result ≢ Status.WriteFault → O.told out.new ≡ O.told out.old }
    ensures lines { OfOutcome (F.told shelf.old) words.now (B.brought brings.old)
        (λ outcome. TellsSome E.told E.faults err.old err.new
        (AreLines result outcome words.now (B.brought brings.old)
        (Rose (F.faults shelf.old) (F.faults shelf.new)))) }
{
    let read = read_words(alloc, words);
    let end = end_of_words(alloc, &read, shelf, out, brings);
    tell(&end, err);
    end.status()
}

// How a call ends, by the words as they were read.
fn end_of_words<'a, F: Shelf, O: Sink, B: Brings>(
    alloc: Global,
    read: &'a Result<Command, WordsError>,
    shelf: &mut F,
    out: &mut O,
    brings: &mut B,
) -> CallEnd<'a>
    requires utf8 { IfOk read.now (λ command. HasUtf8 (command_of command)) }
    requires fresh { B.is_fresh brings.old }
    ensures ends { (due : Reader → Files → Result WritingOf FailureOf) → IsWanted
        (B.brought brings.old) (read_view read.now) due
        → Ends F.told F.faults F.asked shelf.old shelf.new O.told O.faults out.old out.new
        (named_files (B.brought brings.old) read.now) due (call_end_view result) }
    ensures words { IfErr read.now (λ error. call_end_view result ≡ failed (words_failure error)) }
    ensures usage { IfOk read.now (λ command. (end_status (call_end_view result) ≡ Status.Usage) ↔ LacksFormat (B.brought brings.old) (plan (command_of command))) }
    ensures taken { IfOk read.now (λ command. LeavesFormats (end_status (call_end_view result))
        (without_asked B.format_title (plan (command_of command)).format (B.formats brings.old)) (B.formats brings.old) (B.formats brings.new)) }
    ensures taken_report { IfOk read.now (λ command. LeavesFormats (end_status (call_end_view result))
        (without_asked B.report_title (plan (command_of command)).report (B.reports brings.old)) (B.reports brings.old) (B.reports brings.new)) }
    ensures no_format { IfErr read.now (λ _. B.formats brings.new ≡ B.formats brings.old) }
    ensures no_report { IfErr read.now (λ _. B.reports brings.new ≡ B.reports brings.old) }
{
    match read {
        Ok(command) => end_of_command(alloc, command, shelf, out, brings),
        Err(error) => end_without_words(*error),
    }
}

// How a call ends whose words could not be had.
fn end_without_words(error: WordsError) -> CallEnd<'static>
    ensures { call_end_view result ≡ failed (words_failure error) }
{
    match error {
        WordsError::Usage => CallEnd::Misuse(Misuse::Words),
        WordsError::NoMemory => CallEnd::Command(End::Failed(Failure::NoMemory)),
    }
}

// How a command ends.
fn end_of_command<'a, F: Shelf, O: Sink, B: Brings>(
    alloc: Global,
    command: &'a Command,
    shelf: &mut F,
    out: &mut O,
    brings: &mut B,
) -> CallEnd<'a>
    requires utf8 { HasUtf8 (command_of command.now) }
    requires fresh { B.is_fresh brings.old }
    ensures ends { Ends F.told F.faults F.asked shelf.old shelf.new O.told O.faults out.old out.new
        (files_of (B.brought brings.old)
        (plan (command_of command.now)))
        (λ reader files. carried_out reader files
        (B.brought brings.old)
        (plan (command_of command.now)))
        (call_end_view result) }
    ensures usage { (end_status (call_end_view result) ≡ Status.Usage) ↔ LacksFormat (B.brought brings.old) (plan (command_of command.now)) }
    ensures taken { LeavesFormats (end_status (call_end_view result))
        (without_asked B.format_title (plan (command_of command.now)).format (B.formats brings.old)) (B.formats brings.old) (B.formats brings.new) }
    ensures taken_report { LeavesFormats (end_status (call_end_view result))
        (without_asked B.report_title (plan (command_of command.now)).report (B.reports brings.old)) (B.reports brings.old) (B.reports brings.new) }
{
    let places = match brings.find(command) {
        Ok(places) => places,
        Err(misuse) => return CallEnd::Misuse(misuse),
    };
    let Some(name) = package(command) else {
        let found = Found { text: None, places };
        return CallEnd::Command(carry_out(alloc, command, found, shelf, out, brings));
    };
    match fetch_package(alloc, name, shelf) {
        Ok(text) => {
            let found = Found {
                text: Some(&text),
                places,
            };
            CallEnd::Command(carry_out(alloc, command, found, shelf, out, brings))
        }
        Err(failure) => CallEnd::Command(End::Failed(failure)),
    }
}

/// Tells why the words of a command line could not be had, and gives the status that the program ends with.
pub fn refuse_words<E: Sink>(error: WordsError, err: &mut E) -> Status
    ensures status { result ≡ failure_status (words_failure error) }
    ensures lines { Tells E.told E.faults err.old err.new (failure_line (words_failure error)) }
{
    let end = end_without_words(error);
    tell(&end, err);
    end.status()
}

/// Over a shelf and a sink that never fail, the status is the outcome's, or an allocation failed.
pub fn run_surely<E: Sink>(
    alloc: Global,
    words: &[Text],
    shelf: &mut SureShelf,
    err: &mut E,
    brings: &mut Bringing<'_>,
) -> Status
    requires utf8 { All IsUtf8 words.now }
    requires fresh { AreFresh is_closed rows_so_far brings.old.formats.items }
    requires fresh_reports { AreFresh is_ended lines_so_far brings.old.reports.items }
    ensures { (reader : Reader) → IsReader reader
        → (result ≡ (outcome reader words.now (file_named shelf.old)
        (brought_by format_name text_for brings.old.formats.items report_name report_text brings.old.reports.items brings.old.skin)).status)
        ⊎ (result ≡ Status.NoMemory) }
{
    run_by(alloc, words, shelf, &mut NullSink, err, brings)
}
