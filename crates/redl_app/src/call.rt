//! A call with the program's own formats.

ghost use Rattle.std.specs.Prelude.{◌≡◌, IfOk, OnErr, All, IsUtf8};
ghost use Rattle.redl_app.specs.Answers.{Answers};
ghost use Rattle.redl_app.specs.Formats.{brings, program_brings};
ghost use Rattle.redl_commands_shown.specs.Formats.{AreFresh, formats_by};

use crate::brings::Bringing;
use crate::top::{refuse_words, run_by};
use redl_io::{Shelf, Sink, Text};
use redl_lines::Status;
use redl_listing::{
    FullFormat, JsonFormat, RowFormat, TabFormat, TextFormat, WordsFormat, add_format,
};
use redl_page::Skin;
use redl_report::{JsonReport, TableReport, TextReport, add_report_format};
use redl_words::WordsError;
use std::alloc::{AllocError, Global};

/// Does what the words ask, with the program's formats of listings and of reports and this skin of pages. All else is as for
/// `run`; where memory runs out before it, the status is `NoMemory` too.
pub fn run_words<F: Shelf, O: Sink, E: Sink>(
    alloc: Global,
    words: &[Text],
    shelf: &mut F,
    out: &mut O,
    err: &mut E,
    skin: &Skin<'_>,
) -> Status
    requires utf8 { All IsUtf8 words.now }
    ensures answers { Answers F.told F.faults F.asked shelf.old shelf.new O.told O.faults out.old out.new E.told E.faults err.old err.new
        words.now (program_brings skin.now) result }
{
    match run_with_formats(alloc, words, shelf, out, err, skin) {
        Ok(status) => status,
        Err(_) => refuse_words(WordsError::NoMemory, err),
    }
}

// Makes the formats of listings, and does what the words ask with them. `Err` means that memory ran out before, and then nothing was
// done.
fn run_with_formats<F: Shelf, O: Sink, E: Sink>(
    alloc: Global,
    words: &[Text],
    shelf: &mut F,
    out: &mut O,
    err: &mut E,
    skin: &Skin<'_>,
) -> Result<Status, AllocError>
    requires utf8 { All IsUtf8 words.now }
    ensures answers { IfOk result (λ status. Answers F.told F.faults F.asked shelf.old shelf.new O.told O.faults out.old out.new
        E.told E.faults err.old err.new words.now (program_brings skin.now) status) }
    ensures same_shelf { OnErr result (shelf.new ≡ shelf.old) }
    ensures same_out { OnErr result (out.new ≡ out.old) }
    ensures same_err { OnErr result (err.new ≡ err.old) }
{
    let mut formats = Vec::new(alloc);
    add_format(&mut formats, Box::new(alloc, TextFormat::new(alloc)?)?)?;
    add_format(&mut formats, Box::new(alloc, TabFormat::new(alloc)?)?)?;
    add_format(&mut formats, Box::new(alloc, JsonFormat::new(alloc)?)?)?;
    add_format(&mut formats, Box::new(alloc, WordsFormat::new(alloc)?)?)?;
    add_format(&mut formats, Box::new(alloc, FullFormat::new(alloc)?)?)?;
    let showing = Showing {
        formats,
        skin: *skin,
    };
    run_with_reports(alloc, words, shelf, out, err, showing)
}

// How rows and pages are shown: what is brought before the formats of reports are made.
#[derive(Drop)]
struct Showing<'s> {
    // The formats of listings.
    formats: Vec<Box<dyn RowFormat>>,
    // The skin of pages.
    skin: Skin<'s>,
}

// The same with what rows and pages are shown by: makes the formats of reports.
fn run_with_reports<F: Shelf, O: Sink, E: Sink>(
    alloc: Global,
    words: &[Text],
    shelf: &mut F,
    out: &mut O,
    err: &mut E,
    showing: Showing<'_>,
) -> Result<Status, AllocError>
    requires utf8 { All IsUtf8 words.now }
    requires fresh { AreFresh is_closed rows_so_far showing.formats.items }
    ensures answers { IfOk result (λ status. Answers F.told F.faults F.asked shelf.old shelf.new O.told O.faults out.old out.new
        E.told E.faults err.old err.new words.now (brings (formats_by format_name text_for showing.entry.formats.items) showing.entry.skin) status) }
    ensures same_shelf { OnErr result (shelf.new ≡ shelf.old) }
    ensures same_out { OnErr result (out.new ≡ out.old) }
    ensures same_err { OnErr result (err.new ≡ err.old) }
{
    let mut reports = Vec::new(alloc);
    add_report_format(&mut reports, Box::new(alloc, TextReport::new(alloc)?)?)?;
    add_report_format(&mut reports, Box::new(alloc, JsonReport::new(alloc)?)?)?;
    add_report_format(&mut reports, Box::new(alloc, TableReport::new(alloc)?)?)?;
    let Showing { formats, skin } = showing;
    let mut bringing = Bringing {
        formats,
        reports,
        skin,
    };
    Ok(run_by(alloc, words, shelf, out, err, &mut bringing))
}
