//! Sessions over a package of two revisions: which entries are new, repeated and refused, and what is left of the package.
ghost use Rattle.std.specs.Prelude.{◌≡◌};
ghost use Rattle.redl_journal.specs.Journals.{IsAllowed};

use redl_index::Index;
use redl_io::{MemSink, Text};
use redl_join::Verdict;
use redl_journal::Entry;
use redl_kinds::{Lock, RevKind};
use redl_opc::Package;
use redl_outline::{document_package, entries_of};
use redl_output::write_nodes;
use redl_rules::check;
use redl_session::{AdmitError, Bar, Locks, Refusal, Session, Taken};
use redl_tree::{Say, Trace};
use std::alloc::{AllocError, Global};
use std::test::Fail;

// An insertion by Ann, and one by Cy & Co, which is of the second 1714979289.
const BODY: &str =
    "<w:p><w:ins w:id='1' w:author='Ann'><w:r><w:t>a</w:t></w:r></w:ins><w:ins w:id='2' w:author='Cy &amp; Co' w:date='2024-05-06T07:08:09Z'><w:r><w:t>g</w:t></w:r></w:ins></w:p>";

// The same with the first one accepted.
const ACCEPTED: &str =
    "<w:p><w:r><w:t>a</w:t></w:r><w:ins w:id='2' w:author='Cy &amp; Co' w:date='2024-05-06T07:08:09Z'><w:r><w:t>g</w:t></w:r></w:ins></w:p>";

// The lock that a word names: on insertions, on the second of Cy & Co's one, on the second before, or else on an author.
fn lock_of(alloc: Global, word: &[u8]) -> Result<Lock, AllocError> {
    if word == b"insertions".as_slice() {
        Ok(Lock::Kind(RevKind::Content(Trace::Ins)))
    } else if word == b"deletions".as_slice() {
        Ok(Lock::Kind(RevKind::Content(Trace::Del)))
    } else if word == b"that second".as_slice() {
        Ok(Lock::Span(1_714_979_289, 1_714_979_290))
    } else if word == b"the second before".as_slice() {
        Ok(Lock::Span(1_714_979_288, 1_714_979_289))
    } else {
        Ok(Lock::Author(Text::copy_of(alloc, word)?))
    }
}

fn locks_of(alloc: Global, words: &[&[u8]]) -> Result<Locks, AllocError> {
    let mut locks = Vec::new(alloc);
    for word in words {
        locks.push(lock_of(alloc, word)?)?;
    }
    Ok(Locks::new(locks))
}

// A session over the package with this text, with these locks.
fn session_of<'t>(alloc: Global, text: &'t [u8], words: &[&[u8]]) -> Result<Session<'t>, Fail> {
    let locks = locks_of(alloc, words)?;
    let mut pkg = Package::make(alloc, redl_xml::read(alloc, text)?)?;
    check(alloc, &pkg)?;
    let index = Index::build(alloc, &mut pkg)?;
    Ok(Session::start(alloc, pkg, index, locks))
}

// What becomes of an entry.
fn answer(session: &mut Session, entry: Entry) -> Result<Taken, AdmitError>
    requires { IsAllowed entry }
{
    match session.admit(entry) {
        Ok(taken) => Ok(taken),
        Err(Refusal { why, .. }) => Err(why),
    }
}

// What becomes of the last of these entries under these locks, and the verdict on revision 1.
fn last_answer(
    alloc: Global,
    words: &[&[u8]],
    lines: &[u8],
) -> Result<(Result<Taken, AdmitError>, Verdict), Fail> {
    let text = document_package(alloc, "/d", BODY)?;
    let mut session = session_of(alloc, text.as_bytes(), words)?;
    let mut last = Ok(Taken::New);
    for entry in entries_of(alloc, lines)? {
        last = answer(&mut session, entry);
    }
    Ok((last, session.verdict(1)))
}

#[test]
fn entries_are_new_repeated_or_refused(rt: HostRuntime) -> Result<(), Fail> {
    let unknown = Err(AdmitError::Unknown);
    for (lines, answer, verdict) in [
        (
            b"1\t1\taccept\tAnn\n".as_slice(),
            Ok(Taken::New),
            Verdict::Accept,
        ),
        (
            b"1\t1\taccept\tAnn\n1\t1\taccept\tAnn\n",
            Ok(Taken::Repeat),
            Verdict::Accept,
        ),
        (
            b"1\t1\taccept\tAnn\n1\t1\treject\tBob\n",
            Ok(Taken::New),
            Verdict::Disputed,
        ),
        (b"1\t0\taccept\tAnn\n", unknown, Verdict::Undecided),
        (b"1\t3\taccept\tAnn\n", unknown, Verdict::Undecided),
        (
            b"1\t1\treject\tAnn\n1\t2\taccept\tAnn\n",
            Err(AdmitError::Locked(Bar::Author)),
            Verdict::Reject,
        ),
    ] {
        let found = last_answer(rt.alloc(), &[b"Cy & Co"], lines)?;
        assert!(rt; found == (answer, verdict), "{found:?}");
    }
    Ok(())
}

// What becomes of an entry on the revision of Cy & Co under these locks.
fn answer_under(alloc: Global, words: &[&[u8]]) -> Result<Result<Taken, AdmitError>, Fail> {
    let (answer, _verdict) = last_answer(alloc, words, b"1\t2\taccept\tDee\n")?;
    Ok(answer)
}

#[test]
fn the_first_bar_is_told(rt: HostRuntime) -> Result<(), Fail> {
    for (words, want) in [
        (
            [
                b"Cy".as_slice(),
                b"deletions".as_slice(),
                b"the second before".as_slice(),
            ],
            Ok(Taken::New),
        ),
        (
            [b"that second", b"Cy & Co", b"insertions"],
            Err(AdmitError::Locked(Bar::Author)),
        ),
        (
            [b"that second", b"insertions", b"Ann"],
            Err(AdmitError::Locked(Bar::Kind)),
        ),
        (
            [b"Ann", b"deletions", b"that second"],
            Err(AdmitError::Locked(Bar::Span)),
        ),
    ] {
        let found = answer_under(rt.alloc(), &words)?;
        assert!(rt; found == want, "{found:?}");
    }
    Ok(())
}

// The verdicts and the says after these entries, and how many of them were refused.
fn decided(
    alloc: Global,
    author: &[u8],
    lines: &[u8],
) -> Result<(usize, Vec<Verdict>, bool), Fail> {
    let text = document_package(alloc, "/d", BODY)?;
    let mut session = session_of(alloc, text.as_bytes(), &[author])?;
    let refused = session.admit_many(entries_of(alloc, lines)?)?;
    let verdicts = session.verdicts()?;
    let kept = session.says()?.as_slice() == [Say::Accept, Say::Keep].as_slice();
    Ok((refused.len(), verdicts, kept))
}

#[test]
fn the_says_are_those_of_the_verdicts(rt: HostRuntime) -> Result<(), Fail> {
    let lines = b"1\t1\taccept\tAnn\n1\t2\taccept\tAnn\n1\t9\taccept\tAnn\n".as_slice();
    for (author, refused, second, kept) in [
        (b"Cy & Co".as_slice(), 2, Verdict::Undecided, true),
        (b"Cy", 1, Verdict::Accept, false),
    ] {
        let found = decided(rt.alloc(), author, lines)?;
        let same = found.0 == refused
            && found.1.as_slice() == [Verdict::Accept, second].as_slice()
            && found.2 == kept;
        assert!(rt; same, "{found:?}");
    }
    Ok(())
}

// Whether this is what a session writes, and the text of the nodes that it leaves, both of the package with this body.
fn leaves(alloc: Global, lines: &[u8], body: &str) -> Result<(bool, bool), Fail> {
    let text = document_package(alloc, "/d", BODY)?;
    let left = document_package(alloc, "/d", body)?;
    let mut session = session_of(alloc, text.as_bytes(), &[b"Cy & Co"])?;
    let _refused = session.admit_many(entries_of(alloc, lines)?)?;
    let mut out = MemSink::new(alloc, 2_000, Vec::new(alloc))?;
    session.write(&mut out)?;
    let written = out.bytes() == left.as_bytes();
    Ok((written, has_text(alloc, session, left.as_bytes())?))
}

fn has_text(alloc: Global, session: Session, text: &[u8]) -> Result<bool, Fail> {
    let mut out = MemSink::new(alloc, 2_000, Vec::new(alloc))?;
    write_nodes(&session.into_passed()?, &mut out)?;
    Ok(out.bytes() == text)
}

#[test]
fn the_package_is_left_under_the_says(rt: HostRuntime) -> Result<(), Fail> {
    for (lines, body) in [
        (b"".as_slice(), BODY),
        (b"1\t1\taccept\tAnn\n1\t2\taccept\tAnn\n", ACCEPTED),
        (b"1\t1\taccept\tAnn\n1\t1\treject\tAnn\n", BODY),
    ] {
        let left = leaves(rt.alloc(), lines, body)?;
        assert!(rt; left == (true, true), "{left:?}");
    }
    Ok(())
}
