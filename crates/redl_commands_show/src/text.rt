//! `text P` and `left P`.
//!
//! A text is made before it goes out, but for the bare text, which is put as it is made. Those for a reader are masked for a terminal
//! while they go out.

ghost use Rattle.std.specs.Prelude.{◌≡◌, Ok, IfOk, OnErr, OnOk, replicate};
ghost use Rattle.std.specs.Io.KnownBytes.{append_known};
ghost use Rattle.redl_commands_shown.specs.Text.{text_in, viewed};
ghost use Rattle.redl_bare.specs.BareText.{bare_text, units_text};
ghost use Rattle.redl_bare.specs.Package.{stories_units};
ghost use Rattle.redl_commands.specs.Endings.{EndsAlone};
ghost use Rattle.redl_commands.specs.Writing.{only_bytes};
ghost use Rattle.redl_commands_show.specs.Views.{end_after, shown_text, shown_view};
ghost use Rattle.redl_inputs.specs.Reading.{Reads};
ghost use Rattle.redl_inputs.specs.Views.{result_view};
ghost use Rattle.redl_io.specs.Sink.{CountsPut, GrowsByFront, Puts};
ghost use Rattle.redl_left.specs.Lines.{left_lines};
ghost use Rattle.redl_left_texts.specs.Texts.{left_json, left_text};
ghost use Rattle.redl_lines.specs.Ends.{end_view};
ghost use Rattle.redl_marked.specs.MarkedText.{marked_text};
ghost use Rattle.redl_order.specs.Borrowed.{all_borrowed};
ghost use Rattle.redl_terminal.specs.Masks.{masked};
ghost use Rattle.redl_terminal.specs.declared.extent.Extent.TheVariants.{Lines};
ghost use Rattle.redl_views.specs.Walks.{walk_text};

use redl_bare::{Writer, put_bare};
use redl_commands::Collected;
use redl_index::{Counted, Surveyed};
use redl_inputs::read_package;
use redl_io::{Failed, Sink, Staged};
use redl_left::lines;
use redl_left_texts::{json_of, text_of};
use redl_lines::{End, Failure, Remarks};
use redl_marked::put_marked;
use redl_order::ordered;
use redl_terminal::{Extent, put_masked};
use redl_tree::{Elem, Say};
use redl_words::View;
use std::alloc::{AllocError, Global};

/// What goes out of a package.
#[derive(Drop)]
pub enum Shown<'b> {
    /// This text, as a terminal is given it.
    Masked(Vec<u8>),
    /// This text.
    Made(Vec<u8>),
    /// The bare text of this numbered package.
    Bare(Counted<'b>),
}

/// Puts the text of the package with this text, in a view, and gives how the call ends.
pub fn put_text<'a, O: Sink>(alloc: Global, view: View, bytes: &[u8], out: &mut O) -> End<'a>
    ensures { EndsAlone O.told O.faults out.old out.new (λ reader. viewed reader view bytes.now) (end_view result) }
{
    match show_text(alloc, view, bytes) {
        Ok(shown) => put_shown(alloc, &shown, out),
        Err(failure) => End::Failed(failure),
    }
}

// The package that has this text, as it is shown in a view.
fn show_text<'a, 'b>(alloc: Global, view: View, bytes: &'b [u8]) -> Result<Shown<'b>, Failure<'a>>
    ensures { Reads (result_view shown_view result) (λ reader. viewed reader view bytes.now) }
{
    let package = read_package(alloc, bytes)?;
    Ok(show_package(alloc, view, package)?)
}

// The numbered package, as it is shown in a view.
fn show_package(alloc: Global, view: View, pkg: Surveyed<'_>) -> Result<Shown<'_>, AllocError>
    ensures { IfOk result (λ shown. shown_text shown ≡ text_in view pkg.entry) }
{
    let counted = pkg.into_counted();
    match view {
        View::Original => show_plain(alloc, counted, Say::Reject),
        View::Final => show_plain(alloc, counted, Say::Accept),
        View::Marked => show_marked(alloc, counted),
        View::Bare => Ok(Shown::Bare(counted)),
        View::Left => show_left(alloc, counted),
        View::LeftJson => show_left_json(alloc, counted),
    }
}

// The plain text of what the pass leaves, under one say for all revisions.
fn show_plain(alloc: Global, counted: Counted<'_>, say: Say) -> Result<Shown<'_>, AllocError>
    ensures { IfOk result (λ shown. shown_text shown ≡ masked Lines (walk_text (replicate counted.entry.count say) counted.entry.pkg)) }
{
    let says = vec![in alloc; say; counted.count as usize]?;
    let mut text = Collected::new(alloc);
    match redl_views::view(&counted.pkg, &says, &mut text) {
        Ok(()) => Ok(Shown::Masked(text.bytes)),
        Err(_) => Err(AllocError),
    }
}

// The text of the package with its changes marked.
fn show_marked(alloc: Global, counted: Counted<'_>) -> Result<Shown<'_>, AllocError>
    ensures { IfOk result (λ shown. shown_text shown ≡ masked Lines (marked_text counted.entry.pkg)) }
{
    let mut text = Collected::new(alloc);
    match put_marked(&counted.pkg, &mut text) {
        Ok(()) => Ok(Shown::Masked(text.bytes)),
        Err(_) => Err(AllocError),
    }
}

// What is left in the package that a reader doesn't see.
fn show_left(alloc: Global, counted: Counted<'_>) -> Result<Shown<'_>, AllocError>
    ensures { IfOk result (λ shown. shown_text shown ≡ left_text (left_lines counted.entry.pkg)) }
{
    let lines = lines(alloc, counted.pkg.nodes())?;
    Ok(Shown::Made(text_of(alloc, &lines)?))
}

// The same in JSON.
fn show_left_json(alloc: Global, counted: Counted<'_>) -> Result<Shown<'_>, AllocError>
    ensures { IfOk result (λ shown. shown_text shown ≡ left_json (left_lines counted.entry.pkg)) }
{
    let lines = lines(alloc, counted.pkg.nodes())?;
    Ok(Shown::Made(json_of(alloc, &lines)?))
}

// Puts what is shown of a package, and gives how the call ends.
fn put_shown<'a, O: Sink>(alloc: Global, shown: &Shown<'_>, out: &mut O) -> End<'a>
    ensures { EndsAlone O.told O.faults out.old out.new (λ _. Ok (shown_view shown.now)) (end_view result) }
{
    match shown {
        Shown::Masked(text) => end_of(alloc, put_masked_text(text, out)),
        Shown::Made(text) => end_of(alloc, out.put(text)),
        Shown::Bare(counted) => put_bare_text(alloc, counted, out),
    }
}

// How a call ends with nothing to remark, whose text was put with this result.
fn end_of<'a>(alloc: Global, put: Result<(), Failed>) -> End<'a>
    ensures { end_view result ≡ end_after put }
{
    match put {
        Ok(()) => End::Written(Remarks::none(alloc)),
        Err(_) => End::Unwritten(Remarks::none(alloc)),
    }
}

// Puts a text as a terminal is given it, through a stage. `Failed` comes only where `out` failed, which then has only a prefix of it.
fn put_masked_text<O: Sink>(text: &[u8], out: &mut O) -> Result<(), Failed>
    ensures all { OnOk result (O.told out.new ≡ append_known (O.told out.old) (masked Lines text.now)) }
    ensures front { OnErr result (GrowsByFront (O.told out.old) (O.told out.new) (masked Lines text.now)) }
    ensures cause { CountsPut (O.faults out.old) (O.faults out.new) result }
{
    let mut staged = Staged::new(out);
    put_masked(Extent::Lines, text, &mut staged)?;
    staged.finish()
}

// Puts the bare text of a numbered package, and gives how the call ends. Where memory runs out nothing was put.
fn put_bare_text<'a, O: Sink>(alloc: Global, counted: &Counted<'_>, out: &mut O) -> End<'a>
    ensures { EndsAlone O.told O.faults out.old out.new (λ _. Ok (only_bytes (bare_text counted.now.pkg))) (end_view result) }
{
    match ordered(alloc, &counted.pkg) {
        Ok(stories) => end_of(alloc, put_stories(stories, out)),
        Err(_) => End::Failed(Failure::NoMemory),
    }
}

// Puts the bare text of stories and notes through a stage. `Failed` comes only where `out` failed, which then has only a prefix of it.
fn put_stories<O: Sink>(stories: Vec<&Elem<'_>>, out: &mut O) -> Result<(), Failed>
    ensures all { OnOk result (O.told out.new ≡ append_known (O.told out.old) (units_text (stories_units (all_borrowed stories.entry.items)))) }
    ensures front { OnErr result (GrowsByFront (O.told out.old) (O.told out.new) (units_text (stories_units (all_borrowed stories.entry.items)))) }
    ensures cause { CountsPut (O.faults out.old) (O.faults out.new) result }
{
    let mut put = Ok(());
    let staged = put_into(stories, Staged::new(out), &mut put);
    put?;
    staged.finish()
}

// Puts the bare text of stories and notes into a sink, says how that ended, and gives the sink back. The sink is the result, and no
// part of one, so that of a sink which borrows an output it is known that it still does.
fn put_into<K: Sink>(stories: Vec<&Elem<'_>>, sink: K, put: &mut Result<(), Failed>) -> K
    ensures { Puts K.told K.faults K.settled K.lenders sink result (units_text (stories_units (all_borrowed stories.entry.items))) put.new }
{
    let mut writer = Writer::new(sink);
    *put = put_bare(stories, &mut writer);
    writer.sink
}
