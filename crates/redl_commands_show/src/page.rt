//! `page P` with a title, a rank, journals and locks.
//!
//! A page isn't made before it is put: its words are borrowed from the session's book, and its text would be as long as the package.

ghost use Rattle.std.specs.Prelude.{◌≡◌, ℕ, Ok, All, IfOk, IsUtf8, OnErr, OnOk, length, map, option_map};
ghost use Rattle.std.specs.Io.KnownBytes.{append_known};
ghost use Rattle.redl_commands_shown.specs.Page.{is_locked, page_of, paged, session_said, shown_of};
ghost use Rattle.redl_commands.specs.Endings.{Ends, EndsAlone, Finishes};
ghost use Rattle.redl_inputs.specs.Asking.{files_within};
ghost use Rattle.redl_inputs.specs.Views.{admission_view};
ghost use Rattle.redl_io.specs.Limits.{journal_bytes};
ghost use Rattle.redl_io.specs.Sink.{CountsPut, GrowsByFront};
ghost use Rattle.redl_join.specs.LastWords.{last_words, words_on};
ghost use Rattle.redl_lines.specs.Ends.{end_view};
ghost use Rattle.redl_lines.specs.Remarks.{remarks_view};
ghost use Rattle.redl_page.specs.Page.{heading_with, page_text};
ghost use Rattle.redl_page.specs.PageViews.{AreFacts, heading_view, shown_by, skin_view};

use crate::items::items_of;
use redl_index::Revision;
use redl_inputs::{Admitted, open};
use redl_io::{Failed, Shelf, Sink, Staged};
use redl_join::LastWords;
use redl_kinds::Lock;
use redl_lines::{End, Failure, Remarks};
use redl_page::{Heading, ItemWords, PageFacts, Shown, Skin, write_page};
use redl_select::any_holds;
use redl_session::Session;
use redl_words::PageCommand;
use std::alloc::{AllocError, Global};

/// Puts the page that the command asks for, of the package with this text, through a stage, and gives how the call ends.
pub fn put_page<'a, F: Shelf, O: Sink>(
    alloc: Global,
    command: &'a PageCommand,
    bytes: &[u8],
    shelf: &mut F,
    skin: &Skin<'_>,
    out: &mut O,
) -> End<'a>
    requires { All IsUtf8 command.now.journals.items }
    ensures { Ends F.told F.faults F.asked shelf.old shelf.new O.told O.faults out.old out.new (files_within journal_bytes command.now.journals.items)
        (λ reader files. paged reader files (skin_view skin.now) (heading_with command.now.title command.now.rank command.now.pictures) command.now.locks.items command.now.journals.items bytes.now)
        (end_view result) }
{
    let heading = heading_of(command);
    match open(alloc, &command.locks, &command.journals, bytes, shelf) {
        Ok(admitted) => show(alloc, &command.locks, heading, admitted, skin, out),
        Err(failure) => End::Failed(failure),
    }
}

// What the sender of the page gives.
fn heading_of(command: &PageCommand) -> Heading<'_>
    ensures { heading_view result ≡ heading_with command.now.title command.now.rank command.now.pictures }
{
    Heading {
        title: title_of(command),
        rank: command.rank,
        pictures: command.pictures,
    }
}

fn title_of(command: &PageCommand) -> Option<&[u8]>
    ensures { option_map (λ title. title.now) result ≡ command.now.title }
{
    match &command.title {
        Some(title) => Some(title.as_bytes()),
        None => None,
    }
}

// Puts the page of a session with these locks.
fn show<'a, O: Sink>(
    alloc: Global,
    locks: &[Lock],
    heading: Heading<'_>,
    admitted: Admitted<'_>,
    skin: &Skin<'_>,
    out: &mut O,
) -> End<'a>
    ensures { EndsAlone O.told O.faults out.old out.new
        (λ _. Ok (page_of (skin_view skin.now) (heading_view heading.entry) locks.now (admission_view admitted.entry))) (end_view result) }
{
    let Admitted {
        document,
        session,
        remarks,
    } = admitted;
    let mut document = document;
    let digest = document.id().digest;
    let Ok(facts) = facts_of(alloc, &session, locks, digest) else {
        return End::Failed(Failure::NoMemory);
    };
    put_session(&session, &facts, heading, remarks, skin, out)
}

// What a page says besides the rows of the revisions and the words on them.
#[derive(Drop)]
struct Facts<'a> {
    // What it shows of the package beside its text.
    package: PageFacts<'a>,
    // The digest of the package.
    digest: [u8; 32],
    // Whether each revision is locked.
    locked: Vec<bool>,
    // What is said of each.
    said: Vec<ItemWords>,
}

// The same of a session with these locks, of whose package this is the digest.
fn facts_of<'a>(
    alloc: Global,
    session: &Session<'a>,
    locks: &[Lock],
    digest: [u8; 32],
) -> Result<Facts<'a>, AllocError>
    ensures package { IfOk result (λ facts. AreFacts facts.package session.now.nodes) }
    ensures digest { IfOk result (λ facts. facts.digest ≡ digest) }
    ensures locked { IfOk result (λ facts. facts.locked.items ≡ map (is_locked locks.now) session.now.revisions) }
    ensures said { IfOk result (λ facts. facts.said.items ≡ session_said session.now) }
{
    let locked = locked_revisions(alloc, session.index().revisions(), locks)?;
    let said = items_of(alloc, session)?;
    let package = PageFacts::of(alloc, session.package())?;
    Ok(Facts {
        package,
        digest,
        locked,
        said,
    })
}

// Puts the page of a session with these facts.
fn put_session<'a, 'p, O: Sink>(
    session: &Session<'p>,
    facts: &Facts<'p>,
    heading: Heading<'_>,
    remarks: Remarks,
    skin: &Skin<'_>,
    out: &mut O,
) -> End<'a>
    requires package { AreFacts facts.now.package session.now.nodes }
    requires locked { length facts.now.locked.items ≡ length session.now.revisions }
    requires said { facts.now.said.items ≡ session_said session.now }
    ensures { EndsAlone O.told O.faults out.old out.new
        (λ _. Ok (record { bytes = page_text (skin_view skin.now) (shown_of session.now facts.now.locked.items facts.now.digest (heading_view heading.entry)); remarks = remarks_view remarks }))
        (end_view result) }
{
    let Ok(words) = session.book().last_words() else {
        return End::Failed(Failure::NoMemory);
    };
    let page = Shown {
        package: session.package(),
        index: session.index(),
        facts: &facts.package,
        locked: &facts.locked,
        said: &facts.said,
        book: session.book(),
        digest: &facts.digest,
        heading,
    };
    put_shown(skin, &page, &words, remarks, out)
}

// Whether each revision is locked, in the order of the numbers.
fn locked_revisions(
    alloc: Global,
    revisions: &[Revision],
    locks: &[Lock],
) -> Result<Vec<bool>, AllocError>
    ensures { IfOk result (λ locked. locked.items ≡ map (is_locked locks.now) revisions.now) }
{
    let mut locked = Vec::new(alloc);
    for revision in revisions {
        locked.push(is_locked(locks, revision))?;
    }
    Ok(locked)
}

fn is_locked(locks: &[Lock], revision: &Revision) -> bool
    ensures { result ≡ is_locked locks.now revision.now }
{
    any_holds(locks, revision)
}

// Puts a page, and gives how the call ends.
fn put_shown<'a, O: Sink>(
    skin: &Skin<'_>,
    page: &Shown<'_, '_>,
    words: &LastWords<'_>,
    remarks: Remarks,
    out: &mut O,
) -> End<'a>
    requires words { (rev : ℕ) → words_on words.now rev ≡ last_words page.now.book.now rev }
    requires facts { AreFacts page.now.facts.now page.now.package.now }
    requires locked { length page.now.locked.now ≡ length page.now.index.now }
    requires said { length page.now.said.now ≡ length page.now.index.now }
    ensures { Finishes O.told O.faults out.old out.new
        (Ok (record { bytes = page_text (skin_view skin.now) (shown_by page.now); remarks = remarks_view remarks })) (end_view result) }
{
    match put_staged(skin, page, words, out) {
        Ok(()) => End::Written(remarks),
        Err(_) => End::Unwritten(remarks),
    }
}

// The same through a stage. `Failed` comes only where `out` failed, which then has only a prefix of the page.
fn put_staged<O: Sink>(
    skin: &Skin<'_>,
    page: &Shown<'_, '_>,
    words: &LastWords<'_>,
    out: &mut O,
) -> Result<(), Failed>
    requires words { (rev : ℕ) → words_on words.now rev ≡ last_words page.now.book.now rev }
    requires facts { AreFacts page.now.facts.now page.now.package.now }
    requires locked { length page.now.locked.now ≡ length page.now.index.now }
    requires said { length page.now.said.now ≡ length page.now.index.now }
    ensures all { OnOk result (O.told out.new ≡ append_known (O.told out.old) (page_text (skin_view skin.now) (shown_by page.now))) }
    ensures front { OnErr result (GrowsByFront (O.told out.old) (O.told out.new) (page_text (skin_view skin.now) (shown_by page.now))) }
    ensures cause { CountsPut (O.faults out.old) (O.faults out.new) result }
{
    let mut staged = Staged::new(out);
    write_page(skin, page, words, &mut staged)?;
    staged.finish()
}
