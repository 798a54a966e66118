//! `list P` with a format, journals and locks, of all revisions or of those alone that are wanted.

ghost use Rattle.std.specs.Prelude.{◌≡◌, ◌<◌, true, [], length, remove, slice_get, Some, All, IsUtf8, IfOk, if◌then◌else◌};
ghost use Rattle.redl_commands_shown.specs.List.{listed, listing_named, part_names, session_details, session_shown, session_verdicts};
ghost use Rattle.redl_commands_shown.specs.Formats.{AreFresh, LeavesFormats, formats_by, place_named};
ghost use Rattle.redl_inputs.specs.Asking.{files_within};
ghost use Rattle.redl_inputs.specs.Reading.{ReadsFiles, Reads};
ghost use Rattle.redl_commands.specs.Views.{writing_view};
ghost use Rattle.redl_inputs.specs.Views.{admission_view, result_view};
ghost use Rattle.redl_io.specs.Limits.{journal_bytes};
ghost use Rattle.redl_commands.specs.Writing.{outcome_of};
ghost use Rattle.redl_commands_shown.specs.Shown.{shown_revisions};
ghost use Rattle.redl_edits.specs.Edits.{package_edits};
ghost use Rattle.redl_excerpts.specs.Details.{IsDetail};
ghost use Rattle.redl_remarks.specs.Remarked.{remarked_details};
ghost use Rattle.redl_formats.specs.Formats.{IsListed, without_named};
ghost use Rattle.redl_listing.specs.Rows.{shown_rows, shows_details, told_rows};
ghost use Rattle.redl_opc.specs.Shape.{parts_of};
ghost use Rattle.redl_words.specs.Views.{onlys_view};

use crate::shown::{ask_edits, shown_revisions};
use redl_commands::{Output, Writing, edits_if};
use redl_excerpts::Detail;
use redl_index::Index;
use redl_inputs::{Admitted, name_of, open_package, read_package};
use redl_io::{Shelf, Text};
use redl_join::Verdict;
use redl_lines::Failure;
use redl_listing::{Listed, RowFormat, list_in, shows_details};
use redl_opc::Package;
use redl_remarks::remarked_details;
use redl_session::Session;
use redl_words::{ListCommand, Only};
use std::alloc::{AllocError, Global};

/// The listing that the command asks for, of the package with this text, under the joined verdicts of its journals: in the format
/// at this place, which is the first one that has the name. It takes that format out of the list.
pub fn list_package<'a, 'b, F: Shelf>(
    alloc: Global,
    command: &'a ListCommand,
    bytes: &'b [u8],
    shelf: &mut F,
    formats: &mut Vec<Box<dyn RowFormat>>,
    place: usize,
) -> Result<Writing<'b>, Failure<'a>>
    requires name { IsUtf8 command.now.format }
    requires utf8 { All IsUtf8 command.now.journals.items }
    requires place { place_named format_name command.now.format formats.old.items ≡ Some place }
    requires fresh { AreFresh is_closed rows_so_far formats.old.items }
    ensures read { ReadsFiles F.told F.faults F.asked shelf.old shelf.new (files_within journal_bytes command.now.journals.items)
        (result_view writing_view result) (λ reader files. listed reader files (formats_by format_name text_for formats.old.items) command.now.format command.now.locks.items command.now.journals.items (onlys_view command.now.only.items) bytes.now) }
    ensures formats { LeavesFormats (outcome_of (result_view writing_view result)).status
        (without_named format_name command.now.format formats.old.items) formats.old.items formats.new.items }
{
    let package = read_package(alloc, bytes)?;
    let parts = part_names(alloc, package.package())?;
    let admitted = open_package(
        alloc,
        package,
        &command.locks,
        &command.journals,
        bytes,
        shelf,
    )?;
    list_revisions(alloc, command, &parts, admitted, formats, place)
}

// The names of the parts of a package.
fn part_names(alloc: Global, pkg: &Package) -> Result<Vec<Text>, AllocError>
    ensures names { IfOk result (λ names. names.items ≡ part_names pkg.now) }
    ensures utf8 { IfOk result (λ names. All IsUtf8 names.items) }
{
    let mut names = Vec::new(alloc);
    for part in 0..pkg.parts() {
        names.push(Text::copy_of(alloc, part_name(pkg, part))?)?;
    }
    Ok(names)
}

// The name of one part.
fn part_name<'n>(pkg: &'n Package, part: u32) -> &'n [u8]
    requires { part < length (parts_of pkg.now) }
    ensures value { slice_get (part_names pkg.now) part ≡ Some result.now }
    ensures utf8 { IsUtf8 result.now }
{
    pkg.part_name(part).unwrap()
}

// The listing of those of a session's revisions that are shown, where these are the names of the parts of its package.
fn list_revisions<'a, 'b>(
    alloc: Global,
    command: &'a ListCommand,
    parts: &[Text],
    admitted: Admitted<'b>,
    formats: &mut Vec<Box<dyn RowFormat>>,
    place: usize,
) -> Result<Writing<'b>, Failure<'a>>
    requires name { IsUtf8 command.now.format }
    requires names { parts.now ≡ part_names admitted.session.nodes }
    requires utf8 { All IsUtf8 parts.now }
    requires parts { All (λ revision. revision.part < length parts.now) admitted.session.revisions }
    requires place { place_named format_name command.now.format formats.old.items ≡ Some place }
    requires fresh { AreFresh is_closed rows_so_far formats.old.items }
    ensures read { Reads (result_view writing_view result) (λ reader. listing_named
        (formats_by format_name text_for formats.old.items) command.now.format (onlys_view command.now.only.items) (admission_view admitted.entry)) }
    ensures formats { LeavesFormats (outcome_of (result_view writing_view result)).status
        (without_named format_name command.now.format formats.old.items) formats.old.items formats.new.items }
{
    let Admitted {
        session,
        remarks,
        ..
    } = admitted;
    let told = told_of(alloc, name_of(&command.format), &command.only, session)?;
    let made = make_listing(alloc, parts, told, formats, place)?;
    Ok(Writing {
        output: Output::Listing(made),
        remarks,
    })
}

// What a listing tells of a session: its revisions, the verdicts on them, which of them are shown, and the details of these where
// the format shows details.
#[derive(Drop)]
struct ListedSession {
    index: Index,
    verdicts: Vec<Verdict>,
    shown: Vec<bool>,
    details: Vec<Detail>,
}

// The same for the format with this name. The nodes go before the rows come, so that they aren't in memory together.
fn told_of(
    alloc: Global,
    name: &str,
    only: &[Only],
    session: Session,
) -> Result<ListedSession, AllocError>
    ensures index { IfOk result (λ told. told.index ≡ session.entry.revisions) }
    ensures verdicts { IfOk result (λ told. told.verdicts.items ≡ session_verdicts session.entry) }
    ensures shown { IfOk result (λ told. told.shown.items ≡ session_shown (onlys_view only.now) session.entry) }
    ensures details { IfOk result (λ told. told.details.items ≡ session_details name.now (onlys_view only.now) session.entry) }
    ensures utf8 { IfOk result (λ told. All IsDetail told.details.items) }
{
    let verdicts = session.verdicts()?;
    let shown = shown_of(alloc, only, &session, &verdicts)?;
    let details = details_of(alloc, name, &session, &shown)?;
    Ok(ListedSession {
        index: session.into_index(),
        verdicts,
        shown,
        details,
    })
}

// Which revisions of a session with these verdicts are shown. Edits are looked for where something that is wanted depends on them.
fn shown_of(
    alloc: Global,
    only: &[Only],
    session: &Session,
    verdicts: &[Verdict],
) -> Result<Vec<bool>, AllocError>
    requires { length verdicts.now ≡ length session.now.revisions }
    ensures { IfOk result (λ shown. shown.items
        ≡ shown_revisions (package_edits session.now.nodes session.now.revisions) (onlys_view only.now) session.now.revisions verdicts.now) }
{
    let edits = edits_if(alloc, ask_edits(only), session)?;
    let shown = shown_revisions(alloc, &edits, only, session.index().revisions(), verdicts)?;
    Ok(shown)
}

// The listing of what is shown of this, in the format at this place, which it takes.
fn make_listing(
    alloc: Global,
    parts: &[Text],
    told: ListedSession,
    formats: &mut Vec<Box<dyn RowFormat>>,
    place: usize,
) -> Result<Vec<u8>, AllocError>
    requires utf8 { All IsUtf8 parts.now }
    requires parts { All (λ revision. revision.part < length parts.now) told.index }
    requires verdicts { length told.verdicts.items ≡ length told.index }
    requires details { All IsDetail told.details.items }
    requires within { place < length formats.old.items }
    requires fresh { AreFresh is_closed rows_so_far formats.old.items }
    ensures made { IfOk result (λ made. IsListed (slice_get formats.old.items place)
        (λ format. text_for format (shown_rows told.shown.items (told_rows parts.now told.index told.verdicts.items told.details.items)) true)
        true made.items) }
    ensures taken { formats.new.items ≡ remove formats.old.items place }
{
    let ListedSession {
        index,
        verdicts,
        shown,
        details,
    } = told;
    let format = formats.remove(place);
    let mut made = Vec::new(alloc);
    let listed = Listed {
        parts,
        index: &index,
        verdicts: &verdicts,
        shown: &shown,
    };
    list_in(alloc, format, &listed, details, &mut made)?;
    Ok(made)
}

// The details of the revisions of a session that are shown, where the format with this name shows details. The nodes are needed for
// them.
fn details_of(
    alloc: Global,
    name: &str,
    session: &Session,
    shown: &[bool],
) -> Result<Vec<Detail>, AllocError>
    ensures value { IfOk result (λ details. details.items ≡ if shows_details name.now then remarked_details session.now.nodes session.now.revisions shown.now session.now.book else []) }
    ensures utf8 { IfOk result (λ details. All IsDetail details.items) }
{
    if !shows_details(name) {
        return Ok(Vec::new(alloc));
    }
    let details = remarked_details(
        alloc,
        session.package(),
        session.index(),
        shown,
        session.book(),
    )?;
    Ok(details)
}
