//! How each command is carried out.

ghost use Rattle.std.specs.Prelude.{◌≡◌};
ghost use Rattle.std.specs.Option.{option_copied};
ghost use Rattle.redl_commands.specs.Endings.{Ends};
ghost use Rattle.redl_commands_shown.specs.Formats.{IsPlaceAsked, LeavesFormats, without_asked};
ghost use Rattle.redl_outcome.specs.Files.{other_files};
ghost use Rattle.redl_outcome.specs.Plans.{IsTextFor, made_with, plan};
ghost use Rattle.redl_lines.specs.Ends.{end_status, end_view};
ghost use Rattle.redl_words.specs.Commands.{HasUtf8};
ghost use Rattle.redl_words.specs.Views.{command_of};

use crate::brings::{Brings, FormatPlaces};
use redl_commands::put;
use redl_commands_resume::resume_package;
use redl_commands_sample::make_sample;
use redl_commands_show::{check_package, put_page, put_text};
use redl_commands_write::{decide_package, join_files, settle_package, write_package};
use redl_io::{Shelf, Sink};
use redl_lines::End;
use redl_words::Command;
use std::alloc::Global;

/// What was found for a command before it is carried out.
#[derive(Clone, Copy)]
pub(crate) struct Found<'t> {
    /// The text of its package, if it has one.
    pub(crate) text: Option<&'t [u8]>,
    /// Where the formats stand that it asks for.
    pub(crate) places: FormatPlaces,
}

/// Makes what the command writes and puts it on the output. There is a text exactly if the command has a package. Each arm puts
/// what it made, which lives no longer than the text.
pub(crate) fn carry_out<'a, F: Shelf, O: Sink, B: Brings>(
    alloc: Global,
    command: &'a Command,
    found: Found<'_>,
    shelf: &mut F,
    out: &mut O,
    brings: &mut B,
) -> End<'a>
    requires utf8 { HasUtf8 (command_of command.now) }
    requires text { IsTextFor (plan (command_of command.now)).makes (option_copied found.text) }
    requires format { IsPlaceAsked B.format_title (plan (command_of command.now)).format (B.formats brings.old) found.places.format }
    requires report { IsPlaceAsked B.report_title (plan (command_of command.now)).report (B.reports brings.old) found.places.report }
    requires fresh { B.is_fresh brings.old }
    ensures ends { Ends F.told F.faults F.asked shelf.old shelf.new O.told O.faults out.old out.new (other_files (plan (command_of command.now)))
        (λ reader files. made_with reader files (B.brought brings.old) (plan (command_of command.now)).makes (option_copied found.entry.text))
        (end_view result) }
    ensures formats { LeavesFormats (end_status (end_view result))
        (without_asked B.format_title (plan (command_of command.now)).format (B.formats brings.old)) (B.formats brings.old) (B.formats brings.new) }
    ensures reports { LeavesFormats (end_status (end_view result))
        (without_asked B.report_title (plan (command_of command.now)).report (B.reports brings.old)) (B.reports brings.old) (B.reports brings.new) }
{
    let Found { text, places } = found;
    match command {
        Command::Settle { accept, .. } => put(settle_package(alloc, *accept, text.unwrap()), out),
        Command::Text { view, .. } => put_text(alloc, *view, text.unwrap(), out),
        Command::List(command) => {
            let place = places.format.unwrap();
            put(
                brings.list(alloc, command, place, text.unwrap(), shelf),
                out,
            )
        }
        Command::Report(command) => {
            let place = places.report.unwrap();
            put(
                brings.report(alloc, command, place, text.unwrap(), shelf),
                out,
            )
        }
        Command::Page(command) => {
            put_page(alloc, command, text.unwrap(), shelf, brings.skin(), out)
        }
        Command::Write {
            locks,
            journals,
            ..
        } => put(
            write_package(alloc, locks, journals, text.unwrap(), shelf),
            out,
        ),
        Command::Decide(command) => put(decide_package(alloc, command, text.unwrap(), shelf), out),
        Command::Resume(command) => put(resume_package(alloc, command, text.unwrap(), shelf), out),
        Command::Join { journals } => put(join_files(alloc, journals, shelf), out),
        Command::Check { .. } => put(check_package(alloc, text.unwrap()), out),
        Command::Sample { number } => put(make_sample(alloc, *number), out),
    }
}
