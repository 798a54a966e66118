//! Sessions with an editor over a package of two revisions: what becomes of entries, and how the document looks then.
ghost use Rattle.std.specs.Prelude.{◌≡◌, All, IfOk};
ghost use Rattle.redl_journal.specs.Journals.{IsAllowed};

use redl_editor::Editor;
use redl_index::Index;
use redl_io::{MemSink, Text};
use redl_join::Verdict;
use redl_journal::Entry;
use redl_kinds::Lock;
use redl_live_session::{LiveSession, admit_each};
use redl_opc::Package;
use redl_outline::{document_package, entries_of};
use redl_output::write_nodes;
use redl_rules::check;
use redl_sample::{sample_journal, sample_package};
use redl_session::{AdmitError, Bar, Locks, Refusal, Taken};
use std::alloc::{AllocError, Global};
use std::test::Fail;

// An insertion by Ann in the first of two paragraphs, and a deletion by Bob in the second one.
const BODY: &str =
    "<w:p><w:ins w:id='1' w:author='Ann'><w:r><w:t>a</w:t></w:r></w:ins></w:p><w:p><w:del w:id='2' w:author='Bob'><w:r><w:delText>b</w:delText></w:r></w:del></w:p>";

// The same with the insertion accepted and the deletion rejected.
const DECIDED: &str = "<w:p><w:r><w:t>a</w:t></w:r></w:p><w:p><w:r><w:t>b</w:t></w:r></w:p>";

// The first paragraph as it was, with its insertion accepted, and with it rejected.
const FIRST: &[u8] = b"<w:p><w:ins w:id='1' w:author='Ann'><w:r><w:t>a</w:t></w:r></w:ins></w:p>";

const FREED: &[u8] = b"<w:p><w:r><w:t>a</w:t></w:r></w:p>";

const CUT: &[u8] = b"<w:p></w:p>";

/// A session over the package with this text, under these locks.
pub(crate) fn session_over<'t>(
    alloc: Global,
    text: &'t [u8],
    locks: Locks,
) -> Result<LiveSession<'t>, Fail> {
    let mut pkg = Package::make(alloc, redl_xml::read(alloc, text)?)?;
    check(alloc, &pkg)?;
    let index = Index::build(alloc, &mut pkg)?;
    Ok(LiveSession::start(alloc, pkg, index, locks)?)
}

// A session over the package with this text, with a lock on this author.
fn session_of<'t>(alloc: Global, text: &'t [u8], author: &[u8]) -> Result<LiveSession<'t>, Fail> {
    let mut locks = Vec::new(alloc);
    locks.push(Lock::Author(Text::copy_of(alloc, author)?))?;
    session_over(alloc, text, Locks::new(locks))
}

// What becomes of an entry.
fn answer(session: &mut LiveSession, entry: Entry) -> Result<Taken, AdmitError>
    requires { IsAllowed entry }
{
    match session.admit(entry) {
        Ok(taken) => Ok(taken),
        Err(Refusal { why, .. }) => Err(why),
    }
}

// What becomes of the only entry of these lines.
fn answer_to(
    alloc: Global,
    session: &mut LiveSession,
    lines: &[u8],
) -> Result<Result<Taken, AdmitError>, Fail> {
    let mut last = Ok(Taken::New);
    for entry in entries_of(alloc, lines)? {
        last = answer(session, entry);
    }
    Ok(last)
}

// Whether the first paragraph looks like this.
fn first_is(alloc: Global, editor: &Editor, text: &[u8]) -> Result<bool, AllocError> {
    let mut out = MemSink::new(alloc, 2_000, Vec::new(alloc))?;
    if let Some(nodes) = editor.leaf(0, 0) {
        let _ = write_nodes(nodes, &mut out);
    }
    Ok(out.bytes() == text)
}

// What becomes of an entry, the verdict on revision 1 and the number of entries then, and how the first paragraph looks.
type Step<'t> = (Result<Taken, AdmitError>, Verdict, u64, &'t [u8]);

// Whether this comes of the only entry of these lines.
fn is_taken(
    alloc: Global,
    session: &mut LiveSession,
    lines: &[u8],
    want: Step<'_>,
) -> Result<bool, Fail> {
    let (answer, verdict, entries, first) = want;
    let found = answer_to(alloc, session, lines)?;
    let same = found == answer && session.verdict(1) == verdict && session.book().len() == entries;
    Ok(same && first_is(alloc, session.editor(), first)?)
}

const UNKNOWN: Result<Taken, AdmitError> = Err(AdmitError::Unknown);

const LOCKED: Result<Taken, AdmitError> = Err(AdmitError::Locked(Bar::Author));

// Entries that come one after another, with what comes of each.
const STEPS: [(&[u8], Step); 6] = [
    (
        b"1\t1\taccept\tAnn\n",
        (Ok(Taken::New), Verdict::Accept, 1, FREED),
    ),
    (
        b"1\t1\taccept\tAnn\n",
        (Ok(Taken::Repeat), Verdict::Accept, 1, FREED),
    ),
    (
        b"1\t1\treject\tBob\n",
        (Ok(Taken::New), Verdict::Disputed, 2, FIRST),
    ),
    (
        b"2\t1\twithdraw\tAnn\n",
        (Ok(Taken::New), Verdict::Reject, 3, CUT),
    ),
    (b"1\t3\taccept\tAnn\n", (UNKNOWN, Verdict::Reject, 3, CUT)),
    (b"1\t2\taccept\tAnn\n", (LOCKED, Verdict::Reject, 3, CUT)),
];

// The number of the first step that comes to something else, or that of all.
fn steps_taken(alloc: Global) -> Result<usize, Fail> {
    let text = document_package(alloc, "/d", BODY)?;
    let mut session = session_of(alloc, text.as_bytes(), b"Bob")?;
    let mut taken = 0_usize;
    for (lines, want) in STEPS {
        if !is_taken(alloc, &mut session, lines, want)? {
            return Ok(taken);
        }
        taken = taken.saturating_add(1);
    }
    Ok(taken)
}

#[test]
fn the_document_follows_each_entry(rt: HostRuntime) -> Result<(), Fail> {
    let taken = steps_taken(rt.alloc())?;
    assert!(rt; taken == STEPS.len(), "{taken}");
    Ok(())
}

// How many leaves a story has, and whether there is one past the last.
fn leaves_of(editor: &Editor, story: usize) -> (usize, bool) {
    let leaves = editor.leaves(story);
    (leaves, editor.leaf(story, leaves).is_some())
}

#[test]
fn there_is_no_leaf_past_the_last(rt: HostRuntime) -> Result<(), Fail> {
    let text = document_package(rt.alloc(), "/d", BODY)?;
    let session = session_of(rt.alloc(), text.as_bytes(), b"Cy")?;
    for (story, leaves) in [(0, 2), (1, 0)] {
        let got = leaves_of(session.editor(), story);
        assert!(rt; got == (leaves, false), "{story}: {got:?}");
    }
    Ok(())
}

// Whether a session writes this.
fn writes(alloc: Global, session: &LiveSession, text: &[u8]) -> Result<bool, Fail> {
    let mut out = MemSink::new(alloc, 2_000, Vec::new(alloc))?;
    session.write(&mut out)?;
    Ok(out.bytes() == text)
}

// How many of these entries are refused, the verdicts, and whether the package with this body is written then.
fn decided(
    alloc: Global,
    author: &[u8],
    lines: &[u8],
    body: &str,
) -> Result<(usize, Vec<Verdict>, bool), Fail> {
    let text = document_package(alloc, "/d", BODY)?;
    let mut session = session_of(alloc, text.as_bytes(), author)?;
    let refused = session.admit_many(entries_of(alloc, lines)?)?;
    let left = document_package(alloc, "/d", body)?;
    let written = writes(alloc, &session, left.as_bytes())?;
    Ok((refused.len(), session.verdicts()?, written))
}

// Whether it is written when the entries come one by one.
fn decided_each(alloc: Global, author: &[u8], lines: &[u8], body: &str) -> Result<bool, Fail> {
    let text = document_package(alloc, "/d", BODY)?;
    let mut session = session_of(alloc, text.as_bytes(), author)?;
    admit_each(&mut session, entries_of(alloc, lines)?)?;
    let left = document_package(alloc, "/d", body)?;
    writes(alloc, &session, left.as_bytes())
}

// Whether so many of these entries are refused, with these verdicts, and the package with this body is written both ways.
fn is_decided(
    alloc: Global,
    entries: (&[u8], &[u8]),
    refused: usize,
    verdicts: &[Verdict],
    body: &str,
) -> Result<bool, Fail> {
    let (author, lines) = entries;
    let found = decided(alloc, author, lines, body)?;
    let same = found.0 == refused && found.1.as_slice() == verdicts && found.2;
    Ok(same && decided_each(alloc, author, lines, body)?)
}

#[test]
fn what_is_written_is_decided_by_all_entries(rt: HostRuntime) -> Result<(), Fail> {
    for (author, lines, refused, verdicts, body) in [
        (
            b"Cy".as_slice(),
            b"1\t1\taccept\tAnn\n1\t2\treject\tAnn\n1\t9\taccept\tAnn\n".as_slice(),
            1,
            [Verdict::Accept, Verdict::Reject],
            DECIDED,
        ),
        (
            b"Ann",
            b"1\t1\taccept\tAnn\n1\t2\treject\tAnn\n1\t2\taccept\tBob\n",
            1,
            [Verdict::Undecided, Verdict::Disputed],
            BODY,
        ),
    ] {
        let same = is_decided(rt.alloc(), (author, lines), refused, &verdicts, body)?;
        assert!(rt; same, "{author:?}");
    }
    Ok(())
}

// How many blocks the sample has.
const BLOCKS: u32 = 1_000;

// The entries of a reviewer of the sample.
fn entries_by(alloc: Global, name: &[u8]) -> Result<Vec<Entry>, AllocError>
    ensures { IfOk result (λ entries. All IsAllowed entries.items) }
{
    let reviewer = if name == b"Ann".as_slice() {
        0
    } else if name == b"Bob".as_slice() {
        1
    } else {
        2
    };
    let journal = sample_journal(alloc, BLOCKS, reviewer)?;
    Ok(journal.entries)
}

// What is written of the sample under the journals of these reviewers, which come in this order, entry by entry.
fn sample_under(alloc: Global, names: &[&[u8]]) -> Result<Vec<u8>, Fail> {
    let text = sample_package(alloc, BLOCKS)?;
    let mut session = session_over(alloc, &text, Locks::new(Vec::new(alloc)))?;
    for name in names {
        admit_each(&mut session, entries_by(alloc, name)?)?;
    }
    let mut out = MemSink::new(alloc, text.len(), Vec::new(alloc))?;
    session.write(&mut out)?;
    Ok(Vec::from_slice(alloc, out.bytes())?)
}

#[test]
fn the_order_of_journals_changes_no_byte(rt: HostRuntime) -> Result<(), Fail> {
    let names = [b"Ann".as_slice(), b"Bob", b"Cy"];
    let first = sample_under(rt.alloc(), &names)?;
    for order in [[b"Cy".as_slice(), b"Bob", b"Ann"], [b"Bob", b"Cy", b"Ann"]] {
        let other = sample_under(rt.alloc(), &order)?;
        assert!(rt; other == first, "{}", other.len());
    }
    Ok(())
}
