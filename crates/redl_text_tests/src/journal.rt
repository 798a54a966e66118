//! Tables of journals by hand: texts that are no journal, texts that are written again as they were read, and one journal's
//! entries field by field. docs/PROGRAMS.md describes the form.
use redl_io::MemSink;
use redl_journal::{Entry, JournalError, Word, read, write};
use std::alloc::{AllocError, Global};
use std::test::Fail;

const TITLE: &[u8] = b"redline-journal 1\ndocument ";

// The same of version 2, whose entries have ranks.
const RANKED: &[u8] = b"redline-journal 2\ndocument ";

const ZEROS: &[u8] = b"0000000000000000000000000000000000000000000000000000000000000000";

// The SHA-256 of the empty text.
const EMPTY: &[u8] = b"e3b0c44298fc1c149afbf4c8996fb92427ae41e4649b934ca495991b7852b855";

// The same in upper case, which no journal has.
const UPPER: &[u8] = b"E3B0C44298FC1C149AFBF4C8996FB92427AE41E4649B934CA495991B7852B855";

const COUNT: &[u8] = b"\nrevisions 3\n";

// The text of these parts, one after another.
fn text_of(
    alloc: Global,
    title: &[u8],
    digest: &[u8],
    count: &[u8],
    lines: &[u8],
) -> Result<Vec<u8>, AllocError> {
    let mut text = Vec::from_slice(alloc, title)?;
    text.extend_from_slice(digest)?;
    text.extend_from_slice(count)?;
    text.extend_from_slice(lines)?;
    Ok(text)
}

fn is_malformed(alloc: Global, text: &[u8]) -> bool {
    read(alloc, text).err() == Some(JournalError::Malformed)
}

#[test]
fn heads_of_no_journal_are_refused(rt: HostRuntime) -> Result<(), Fail> {
    for (fault, title, digest, count) in [
        ("nothing", b"".as_slice(), b"".as_slice(), b"".as_slice()),
        ("version 3", b"redline-journal 3\ndocument ", ZEROS, COUNT),
        ("version 02", b"redline-journal 02\ndocument ", ZEROS, COUNT),
        ("no title", b"document ", ZEROS, COUNT),
        ("63 digits", TITLE, &ZEROS[1..], COUNT),
        ("upper-case digits", TITLE, UPPER, COUNT),
        ("count 03", TITLE, ZEROS, b"\nrevisions 03\n"),
        ("count 2^32", TITLE, ZEROS, b"\nrevisions 4294967296\n"),
        ("cut count", TITLE, ZEROS, b"\nrevisions 3"),
    ] {
        let text = text_of(rt.alloc(), title, digest, count, b"")?;
        assert!(rt; is_malformed(rt.alloc(), &text), "{fault}");
    }
    Ok(())
}

#[test]
fn lines_of_no_entry_are_refused(rt: HostRuntime) -> Result<(), Fail> {
    for (fault, line) in [
        ("no newline", b"1\t1\taccept\tAnn".as_slice()),
        ("leading zero", b"01\t1\taccept\tAnn\n"),
        ("plus", b"+1\t1\taccept\tAnn\n"),
        ("revision past 4294967295", b"1\t4294967296\taccept\tAnn\n"),
        ("seq 0", b"0\t1\taccept\tAnn\n"),
        ("word in upper case", b"1\t1\tAccept\tAnn\n"),
        ("empty reviewer", b"1\t1\taccept\t\n"),
        ("byte 7F in the reviewer", b"1\t1\taccept\tA\x7fn\n"),
        ("reviewer not UTF-8", b"1\t1\taccept\tA\xc3\n"),
        ("carriage return", b"1\t1\taccept\tAnn\r\n"),
        ("empty line", b"1\t1\taccept\tAnn\n\n"),
        ("space for a tab", b"1 1\taccept\tAnn\n"),
        ("a rank in version 1", b"1\t1\taccept\t0\tAnn\n"),
    ] {
        let text = text_of(rt.alloc(), TITLE, ZEROS, COUNT, line)?;
        assert!(rt; is_malformed(rt.alloc(), &text), "{fault}");
    }
    Ok(())
}

#[test]
fn lines_without_a_rank_are_refused_in_version_2(rt: HostRuntime) -> Result<(), Fail> {
    for (fault, line) in [
        ("no rank", b"1\t1\taccept\tAnn\n".as_slice()),
        ("rank 10", b"1\t1\taccept\t10\tAnn\n"),
        ("rank 02", b"1\t1\taccept\t02\tAnn\n"),
        ("an empty rank", b"1\t1\taccept\t\tAnn\n"),
        ("the rank last", b"1\t1\taccept\tAnn\t2\n"),
    ] {
        let text = text_of(rt.alloc(), RANKED, ZEROS, COUNT, line)?;
        assert!(rt; is_malformed(rt.alloc(), &text), "{fault}");
    }
    Ok(())
}

// Whether the text has this number of entries and is written so.
fn is_written(alloc: Global, text: &[u8], entries: usize, want: &[u8]) -> Result<bool, Fail> {
    let journal = read(alloc, text)?;
    let mut sink = MemSink::new(alloc, 2_000, Vec::new(alloc))?;
    let answer = write(&journal, &mut sink);
    Ok(journal.entries.len() == entries && answer.is_ok() && sink.bytes() == want)
}

#[test]
fn journals_are_written_as_they_were_read(rt: HostRuntime) -> Result<(), Fail> {
    for (title, count, lines, entries) in [
        (TITLE, b"\nrevisions 0\n".as_slice(), b"".as_slice(), 0),
        (
            TITLE,
            COUNT,
            b"1\t1\twithdraw\tAnn\n1\t1\twithdraw\tAnn\n1\t1\taccept\tAnn\n",
            3,
        ),
        (
            TITLE,
            b"\nrevisions 9\n",
            b"4294967295\t0\taccept\tCy & Co\n1\t4294967295\treject\tJ\xc3\xb6rg\n",
            2,
        ),
        (
            RANKED,
            COUNT,
            b"1\t1\treject\t9\tChief\n1\t1\taccept\t0\tAnn\n",
            2,
        ),
    ] {
        let text = text_of(rt.alloc(), title, EMPTY, count, lines)?;
        assert!(rt;
            is_written(rt.alloc(), &text, entries, &text)?,
            "{entries} entries"
        );
    }
    Ok(())
}

#[test]
fn ranks_of_0_are_written_in_version_1(rt: HostRuntime) -> Result<(), Fail> {
    for (ranked, plain, entries) in [
        (b"".as_slice(), b"".as_slice(), 0),
        (b"1\t1\taccept\t0\tAnn\n", b"1\t1\taccept\tAnn\n", 1),
    ] {
        let text = text_of(rt.alloc(), RANKED, EMPTY, COUNT, ranked)?;
        let want = text_of(rt.alloc(), TITLE, EMPTY, COUNT, plain)?;
        assert!(rt;
            is_written(rt.alloc(), &text, entries, &want)?,
            "{entries} entries"
        );
    }
    Ok(())
}

// Whether a copy of the entry has these values: its sequence number, revision, word, rank and reviewer.
fn has_copy(
    alloc: Global,
    entry: &Entry,
    wanted: (u32, u32, Word, u8, &[u8]),
) -> Result<bool, AllocError> {
    let copy = entry.copy(alloc)?;
    let (seq, rev, word, rank, reviewer) = wanted;
    Ok(
        (copy.seq, copy.rev, copy.rank) == (seq, rev, rank)
            && copy.word == word
            && copy.reviewer.as_bytes() == reviewer,
    )
}

#[test]
fn entries_are_read_field_by_field(rt: HostRuntime) -> Result<(), Fail> {
    let lines = b"7\t205\treject\t0\tBob\n12\t0\taccept\t7\tAnn B\n";
    let text = text_of(rt.alloc(), RANKED, EMPTY, b"\nrevisions 300\n", lines)?;
    let journal = read(rt.alloc(), &text)?;
    let head = (journal.count, journal.digest[0], journal.digest[31]);
    assert!(rt; head == (300, 0xe3, 0x55), "{head:?}");
    for (entry, wanted) in journal.entries.iter().zip([
        (7, 205, Word::Reject, 0, b"Bob".as_slice()),
        (12, 0, Word::Accept, 7, b"Ann B"),
    ]) {
        assert!(rt; has_copy(rt.alloc(), entry, wanted)?, "{}", wanted.0);
    }
    Ok(())
}
