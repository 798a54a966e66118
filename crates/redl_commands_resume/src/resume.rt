//! `resume P Q` with journals of both.
//!
//! `resume` takes the first sitting and drops its tree, `resume_on` looks whether the second package is what was left,
//! `take_second` takes the second sitting and drops its package, and `conclude` compares what both come to. The first package is read
//! again for that, so that no more than one tree is there at a time.
//!
//! The first sitting leaves its package, as the journals know it, the book of what it decided, and what it wrote as a text.
//! It also leaves the numbers of all elements of that, part by part (4 bytes an element). The text is compared with the bytes of the
//! second package, and goes. Both packages have the same elements in the same order, so the place of an element gives its number
//! in both (`redl_sittings`). The list of first numbers is filled from the last element on, so of several elements of one revision
//! the first one counts. A text that was read once can fail the second time for memory alone.

ghost use Rattle.std.specs.Prelude.{◌≡◌, ◌<◌, ◌^◌, ◌++◌, ◌∷◌, All, IsUtf8, IfOk, Ok, length, map};
ghost use Rattle.std.specs.Str.{bytes_eq};
ghost use Rattle.redl_commands_shown.specs.Resume.{of_second, resumed, resumed_on, resumed_with, second_cause, second_failure};
ghost use Rattle.redl_commands.specs.Settle.{passed_text};
ghost use Rattle.redl_commands.specs.Write.{left_text};
ghost use Rattle.redl_commands_resume.specs.Inside.FirstSittings.{IsFirst, IsReadAgain, joined_by, joined_view, read_under, resumption_of, second_joined};
ghost use Rattle.redl_commands.specs.Views.{writing_view};
ghost use Rattle.redl_index.specs.Numbers.{package_revisions};
ghost use Rattle.redl_inputs.specs.Admission.{Admission};
ghost use Rattle.redl_inputs.specs.Packages.{package_in};
ghost use Rattle.redl_inputs.specs.Asking.{file_within, files_within};
ghost use Rattle.redl_inputs.specs.Reading.{Reads, ReadsFiles};
ghost use Rattle.redl_inputs.specs.Views.{admission_view, document_view, result_view};
ghost use Rattle.redl_io.specs.Limits.{journal_bytes, package_bytes};
ghost use Rattle.redl_lines.specs.Failures.{cause_view, failure_view};
ghost use Rattle.redl_rules.specs.Attributes.{broken_rule};
ghost use Rattle.redl_session.specs.Says.{says_of};
ghost use Rattle.redl_session.specs.Sessions.{says};
ghost use Rattle.redl_sittings.specs.JoinedBooks.{with_second};
ghost use Rattle.redl_sittings.specs.SecondNumbers.{numbers_beside, part_numbers, parts_beside};
ghost use Rattle.redl_tree.specs.Decisions.Packages.{pass_package};
ghost use Rattle.redl_tree.specs.Model.Text.{text};
ghost use Rattle.redl_tree.specs.Model.View.{nodes_of};

use redl_commands::{Collected, Output, Writing};
use redl_index::{Counted, Surveyed};
use redl_inputs::{
    Admitted, DocumentId, JOURNALS_LIMIT, fetch_package, name_of, pass_nodes, read_package, sit,
};
use redl_io::{Shelf, Text};
use redl_join::Book;
use redl_lines::{Cause, Failure, RefusedEntries, Remarks};
use redl_output::write_nodes;
use redl_session::{Session, book_says};
use redl_sittings::{add_second, decided, first_numbers, numbers_by_part};
use redl_tree::Node;
use redl_words::ResumeCommand;
use std::alloc::{AllocError, Global};

/// The journal of two sittings for the package with this text: one with the journals that the command names first, and one with
/// its other journals over its second package, which has to be what the first sitting left.
pub fn resume_package<'a, 'b, F: Shelf>(
    alloc: Global,
    command: &'a ResumeCommand,
    bytes: &[u8],
    shelf: &mut F,
) -> Result<Writing<'b>, Failure<'a>>
    requires second { IsUtf8 command.now.second }
    requires firsts { All IsUtf8 command.now.firsts.items }
    requires seconds { All IsUtf8 command.now.journals.items }
    ensures { ReadsFiles F.told F.faults F.asked shelf.old shelf.new (files_within journal_bytes command.now.firsts.items ++ file_within package_bytes command.now.second ∷ files_within journal_bytes command.now.journals.items)
        (result_view writing_view result) (λ reader files. resumed reader files command.now.second command.now.firsts.items command.now.journals.items bytes.now) }
{
    let package = read_package(alloc, bytes)?;
    let (admitted, left) = sit(
        alloc,
        package,
        JOURNALS_LIMIT,
        &command.firsts,
        bytes,
        shelf,
    )?;
    let (first, text) = leave(alloc, admitted, bytes.len())?;
    let second = Second {
        package: name_of(&command.second),
        journals: &command.journals,
        left,
    };
    resume_on(alloc, first, text, second, bytes, shelf)
}

// What a second sitting takes from the shelf.
#[derive(Clone, Copy)]
struct Second<'a> {
    // The name of its package.
    package: &'a str,
    // The names of its journals.
    journals: &'a [Text],
    // How many bytes these may have together.
    left: usize,
}

// What a first sitting leaves for the second one, besides a text.
#[derive(Drop)]
pub struct First {
    // The package, as its journals know it.
    pub document: DocumentId,
    // The entries on the revisions that were decided.
    pub decided: Book,
    // The revision of each element of what is left, part by part.
    pub numbers: Vec<Vec<u32>>,
    // The entries that were refused.
    pub refused: RefusedEntries,
}

// What a first sitting leaves, and the text of what it leaves of its package. Room for `room` bytes of it is made at once.
fn leave(alloc: Global, admitted: Admitted, room: usize) -> Result<(First, Vec<u8>), AllocError>
    ensures first { IfOk result (λ x. IsFirst (admission_view admitted.entry) x.0) }
    ensures text { IfOk result (λ x. x.1.items ≡ left_text admitted.entry.session) }
{
    let Admitted {
        document,
        session,
        remarks,
    } = admitted;
    let mut document = document;
    let document = document.id();
    let decided = decided(alloc, session.book())?;
    let (numbers, text) = pass_on(alloc, session, room)?;
    let first = First {
        document,
        decided,
        numbers,
        refused: remarks.refused,
    };
    Ok((first, text))
}

// The numbers of what a session leaves of its package, and the text of that. The session goes.
fn pass_on(
    alloc: Global,
    session: Session,
    room: usize,
) -> Result<(Vec<Vec<u32>>, Vec<u8>), AllocError>
    ensures numbers { IfOk result (λ x. map (λ part. part.items) x.0.items ≡ part_numbers (pass_package (says session.entry) session.entry.nodes)) }
    ensures text { IfOk result (λ x. x.1.items ≡ left_text session.entry) }
{
    let nodes = session.into_passed()?;
    let numbers = numbers_by_part(alloc, &nodes)?;
    let text = text_of(alloc, &nodes, room)?;
    Ok((numbers, text))
}

// The text of nodes. Room for `room` bytes is made at once.
fn text_of(alloc: Global, nodes: &[Node], room: usize) -> Result<Vec<u8>, AllocError>
    ensures { IfOk result (λ bytes. bytes.items ≡ text (nodes_of nodes.now)) }
{
    let mut collected = Collected::with_room(alloc, room)?;
    match write_nodes(nodes, &mut collected) {
        Ok(()) => Ok(collected.bytes),
        Err(_) => Err(AllocError),
    }
}

// The rest, after a first sitting that left this text of its package.
fn resume_on<'a, 'b, F: Shelf>(
    alloc: Global,
    first: First,
    text: Vec<u8>,
    second: Second<'a>,
    bytes: &[u8],
    shelf: &mut F,
) -> Result<Writing<'b>, Failure<'a>>
    requires utf8 { All IsUtf8 second.journals.now }
    requires left { second.left < 2 ^ 32 }
    ensures { (one : Admission) → IsFirst one first → IsReadAgain bytes.now one → text.items ≡ left_text one.state
        → ReadsFiles F.told F.faults F.asked shelf.old shelf.new (file_within package_bytes second.entry.package.now ∷ files_within second.entry.left second.entry.journals.now) (result_view writing_view result)
        (λ reader files. resumed_with reader files second.entry.package.now second.entry.journals.now (one, second.entry.left)) }
{
    let whole = fetch_package(alloc, second.package, shelf)?;
    if !is_text(text, &whole) {
        return Err(Failure::Cause(Cause::NotWritten));
    }
    resume_with(alloc, first, whole, second, bytes, shelf)
}

// Whether this is the whole text, which goes.
fn is_text(text: Vec<u8>, whole: &[u8]) -> bool
    ensures { result ≡ bytes_eq whole.now text.items }
{
    whole == text.as_slice()
}

// The rest, with a second package that has this text, which goes once the second sitting is over.
fn resume_with<'a, 'b, F: Shelf>(
    alloc: Global,
    first: First,
    whole: Vec<u8>,
    second: Second<'a>,
    bytes: &[u8],
    shelf: &mut F,
) -> Result<Writing<'b>, Failure<'a>>
    requires utf8 { All IsUtf8 second.journals.now }
    requires left { second.left < 2 ^ 32 }
    ensures { (one : Admission) → IsFirst one first → IsReadAgain bytes.now one
        → ReadsFiles F.told F.faults F.asked shelf.old shelf.new (files_within second.entry.left second.entry.journals.now) (result_view writing_view result)
        (λ reader files. resumed_on reader files second.entry.left second.entry.journals.now whole.items one) }
{
    let First {
        document,
        decided,
        numbers,
        refused,
    } = first;
    let joined = take_second(alloc, decided, &numbers, whole, second, shelf)?;
    conclude(alloc, document, refused, joined, bytes)
}

// Joins a finished first sitting with the second one, over the package with this text.
fn take_second<'a, F: Shelf>(
    alloc: Global,
    decided: Book,
    numbers: &[Vec<u32>],
    whole: Vec<u8>,
    second: Second<'a>,
    shelf: &mut F,
) -> Result<Joined, Failure<'a>>
    requires utf8 { All IsUtf8 second.journals.now }
    requires left { second.left < 2 ^ 32 }
    ensures { ReadsFiles F.told F.faults F.asked shelf.old shelf.new (files_within second.entry.left second.entry.journals.now) (result_view joined_view result)
        (λ reader files. second_joined reader files second.entry.left second.entry.journals.now whole.items decided (map (λ part. part.items) numbers.now)) }
{
    let package = read_second(alloc, &whole)?;
    let (admitted, _) = sit(alloc, package, second.left, second.journals, &whole, shelf)?;
    Ok(join(alloc, decided, numbers, admitted, whole.len())?)
}

// The second package, which has this text.
fn read_second<'a, 'b>(alloc: Global, whole: &'b [u8]) -> Result<Surveyed<'b>, Failure<'a>>
    ensures read { Reads (result_view (λ made. made) result) (λ reader. of_second (package_in reader whole.now)) }
    ensures sound { IfOk result (λ made. broken_rule made ≡ None) }
{
    match read_package(alloc, whole) {
        Ok(package) => Ok(package),
        Err(failure) => Err(second_failure(failure)),
    }
}

fn second_failure(failure: Failure<'_>) -> Failure<'_>
    ensures { failure_view result ≡ second_failure (failure_view failure.entry) }
{
    match failure {
        Failure::Cause(cause) => Failure::Cause(second_cause(cause)),
        Failure::Unread(name) => Failure::Unread(name),
        Failure::NoMemory => Failure::NoMemory,
    }
}

fn second_cause(cause: Cause<'_>) -> Cause<'_>
    ensures { cause_view result ≡ second_cause (cause_view cause.entry) }
{
    match cause {
        Cause::Package(fault) => Cause::Second(fault),
        cause => cause,
    }
}

// What both sittings come to.
#[derive(Drop)]
pub struct Joined {
    // The joined book.
    pub book: Book,
    // The text of the second package under its own verdicts.
    pub text: Vec<u8>,
    // The entries that its session refused.
    pub refused: RefusedEntries,
}

// The same of a second sitting. Room for `room` bytes of its text is made at once.
fn join(
    alloc: Global,
    decided: Book,
    numbers: &[Vec<u32>],
    second: Admitted,
    room: usize,
) -> Result<Joined, AllocError>
    ensures { IfOk result (λ joined. joined_view joined ≡ joined_by decided (map (λ part. part.items) numbers.now) (admission_view second.entry)) }
{
    let Admitted {
        session,
        remarks,
        ..
    } = second;
    let book = join_books(alloc, decided, numbers, &session)?;
    let text = text_left(alloc, session, room)?;
    Ok(Joined {
        book,
        text,
        refused: remarks.refused,
    })
}

// The book of both sittings, where this is the session of the second one.
fn join_books(
    alloc: Global,
    decided: Book,
    numbers: &[Vec<u32>],
    session: &Session,
) -> Result<Book, AllocError>
    ensures { IfOk result (λ book. book ≡ with_second decided session.now.book
        (numbers_beside (parts_beside (part_numbers session.now.nodes) (map (λ part. part.items) numbers.now)) (length session.now.revisions))) }
{
    let seconds = numbers_by_part(alloc, session.package().nodes())?;
    let back = first_numbers(alloc, numbers, &seconds, session.index().count())?;
    let mut book = decided;
    add_second(alloc, &mut book, session.book(), &back)?;
    Ok(book)
}

// The text of what a session leaves of its package. The session goes.
fn text_left(alloc: Global, session: Session, room: usize) -> Result<Vec<u8>, AllocError>
    ensures { IfOk result (λ bytes. bytes.items ≡ left_text session.entry) }
{
    let nodes = session.into_passed()?;
    text_of(alloc, &nodes, room)
}

// The journal of both sittings, where they come to the same text: for the package with this text, as its journals know it, whose
// session refused these entries.
fn conclude<'a, 'b>(
    alloc: Global,
    document: DocumentId,
    refused: RefusedEntries,
    joined: Joined,
    bytes: &[u8],
) -> Result<Writing<'b>, Failure<'a>>
    ensures { (one : Admission) → document_view document ≡ one.document → refused ≡ one.remarks.refused → IsReadAgain bytes.now one
        → Reads (result_view writing_view result) (λ reader. resumption_of one (joined_view joined)) }
{
    let text = text_under(alloc, &joined.book, bytes)?;
    if !is_same(&text, &joined.text) {
        return Err(Failure::Cause(Cause::Differ));
    }
    Ok(Writing {
        output: Output::Journal {
            document,
            book: joined.book,
        },
        remarks: Remarks {
            refused,
            second: joined.refused,
            idle: Vec::new(alloc),
            notes: Vec::new(alloc),
        },
    })
}

fn is_same(text: &[u8], other: &[u8]) -> bool
    ensures { result ≡ bytes_eq text.now other.now }
{
    text == other
}

// The text of the package with this text under the verdicts of a book.
fn text_under<'a>(alloc: Global, book: &Book, bytes: &[u8]) -> Result<Vec<u8>, Failure<'a>>
    ensures { Reads (result_view (λ text. text.items) result)
        (λ reader. read_under reader bytes.now book.now) }
{
    let package = read_package(alloc, bytes)?;
    Ok(pass_text(alloc, package, book, bytes.len())?)
}

fn pass_text(alloc: Global, pkg: Surveyed, book: &Book, room: usize) -> Result<Vec<u8>, AllocError>
    ensures { IfOk result (λ bytes. bytes.items ≡ passed_text (says_of book.now (package_revisions pkg.entry)) pkg.entry) }
{
    let Counted { pkg, count } = pkg.into_counted();
    let says = book_says(alloc, book, count)?;
    let nodes = pass_nodes(alloc, pkg, &says)?;
    text_of(alloc, &nodes, room)
}
