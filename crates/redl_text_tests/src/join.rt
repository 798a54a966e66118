//! Books by hand: their verdicts, their text whatever the order of the journals, and what a removal leaves.
use redl_io::{MemSink, Text};
use redl_join::{Book, Verdict};
use redl_journal::{Entry, JournalError, Word};
use redl_outline::{add_entries, book_of};
use std::alloc::{AllocError, Global};
use std::test::Fail;

fn verdict_of(alloc: Global, lines: &[u8]) -> Result<Verdict, Fail> {
    let book = book_of(alloc, lines)?;
    Ok(book.verdict(1))
}

#[test]
fn verdicts_of_small_books(rt: HostRuntime) -> Result<(), Fail> {
    for (case, lines, want) in [
        ("no entry", b"".as_slice(), Verdict::Undecided),
        ("one accepts", b"1\t1\taccept\tAnn\n", Verdict::Accept),
        (
            "another revision",
            b"1\t2\taccept\tAnn\n",
            Verdict::Undecided,
        ),
        (
            "two reviewers",
            b"1\t1\taccept\tAnn\n1\t1\treject\tBob\n",
            Verdict::Disputed,
        ),
        (
            "older word",
            b"2\t1\treject\tAnn\n1\t1\taccept\tAnn\n",
            Verdict::Reject,
        ),
        (
            "withdrawn",
            b"1\t1\taccept\tAnn\n2\t1\twithdraw\tAnn\n",
            Verdict::Undecided,
        ),
    ] {
        let verdict = verdict_of(rt.alloc(), lines)?;
        assert!(rt; verdict == want, "{case}: {verdict:?}");
    }
    Ok(())
}

#[test]
fn the_highest_rank_with_a_word_decides(rt: HostRuntime) -> Result<(), Fail> {
    for (case, lines, want) in [
        (
            "a higher rank",
            b"1\t1\treject\t2\tChief\n1\t1\taccept\t0\tAnn\n".as_slice(),
            Verdict::Reject,
        ),
        (
            "the same rank",
            b"1\t1\treject\t2\tChief\n1\t1\taccept\t2\tAnn\n",
            Verdict::Disputed,
        ),
        (
            "a higher rank that was withdrawn",
            b"2\t1\twithdraw\t2\tChief\n1\t1\treject\t2\tChief\n1\t1\taccept\t0\tAnn\n",
            Verdict::Accept,
        ),
        (
            "two ranks under one seq",
            b"1\t1\taccept\t2\tAnn\n1\t1\treject\t3\tAnn\n",
            Verdict::Reject,
        ),
        (
            "an older word of a higher rank",
            b"1\t1\taccept\t9\tAnn\n2\t1\treject\t0\tAnn\n",
            Verdict::Reject,
        ),
    ] {
        let verdict = verdict_of(rt.alloc(), lines)?;
        assert!(rt; verdict == want, "{case}: {verdict:?}");
    }
    Ok(())
}

// The seqs and ranks of the last words on the revision, as one number: each as its seq times 10 and its rank, in hundreds.
fn last_words_on(book: &Book, rev: u32) -> Result<u32, AllocError> {
    let words = book.last_words()?;
    let mut all = 0_u32;
    for word in words.on(rev) {
        let own = word
            .seq
            .saturating_mul(10)
            .saturating_add(u32::from(word.rank));
        all = all.saturating_mul(100).saturating_add(own);
    }
    Ok(all)
}

#[test]
fn the_last_words_of_each_reviewer(rt: HostRuntime) -> Result<(), Fail> {
    let lines =
        b"1\t1\taccept\t5\tAnn\n2\t1\treject\t3\tAnn\n2\t1\taccept\t0\tAnn\n3\t2\taccept\t1\tAnn\n1\t1\taccept\t0\tBob\n2\t1\twithdraw\t4\tBob\n".as_slice();
    let book = book_of(rt.alloc(), lines)?;
    for (rev, want) in [(0, 0), (1, 202324), (2, 31), (3, 0)] {
        let words = last_words_on(&book, rev)?;
        assert!(rt; words == want, "{rev}: {words}");
    }
    Ok(())
}

// Whether the book is written as this text.
fn has_text(alloc: Global, book: &Book, text: &[u8]) -> Result<bool, AllocError> {
    let mut sink = MemSink::new(alloc, 2_000, Vec::new(alloc))?;
    let answer = book.write(&[0; 32], 3, &mut sink);
    Ok(answer.is_ok() && sink.bytes() == text)
}

// The book of a journal with the first lines, of one with the other lines, and of the first one again.
fn joined(alloc: Global, one: &[u8], other: &[u8]) -> Result<Book, JournalError> {
    let mut book = book_of(alloc, one)?;
    add_entries(alloc, &mut book, other)?;
    add_entries(alloc, &mut book, one)?;
    Ok(book)
}

#[test]
fn journals_join_in_any_order(rt: HostRuntime) -> Result<(), Fail> {
    let first = b"2\t1\treject\tBob\n1\t2\taccept\tAnn\n".as_slice();
    let second = b"1\t1\taccept\tBob\n2\t1\treject\tBob\n".as_slice();
    let text =
        b"redline-journal 1\ndocument 0000000000000000000000000000000000000000000000000000000000000000\nrevisions 3\n1\t2\taccept\tAnn\n1\t1\taccept\tBob\n2\t1\treject\tBob\n";
    for (one, other) in [(first, second), (second, first)] {
        let book = joined(rt.alloc(), one, other)?;
        assert!(rt; has_text(rt.alloc(), &book, text)?);
    }
    Ok(())
}

#[test]
fn a_book_with_a_rank_is_written_in_version_2(rt: HostRuntime) -> Result<(), Fail> {
    let ann = b"1\t1\taccept\tAnn\n".as_slice();
    let chief = b"1\t1\treject\t2\tChief\n1\t1\taccept\t2\tAnn\n".as_slice();
    let text =
        b"redline-journal 2\ndocument 0000000000000000000000000000000000000000000000000000000000000000\nrevisions 3\n1\t1\taccept\t0\tAnn\n1\t1\taccept\t2\tAnn\n1\t1\treject\t2\tChief\n";
    for (one, other) in [(ann, chief), (chief, ann)] {
        let book = joined(rt.alloc(), one, other)?;
        assert!(rt; has_text(rt.alloc(), &book, text)?);
    }
    Ok(())
}

// Removes the entry. Gives whether it was there, Bob's greatest seq, the verdict on revision 1, and the number of entries.
fn after_removal(book: &mut Book, entry: &Entry) -> (bool, u32, Verdict, u64, usize) {
    let was_there = book.remove(entry);
    (
        was_there,
        book.greatest(b"Bob"),
        book.verdict(1),
        book.len(),
        book.entries().count(),
    )
}

#[test]
fn a_removed_entry_no_longer_counts(rt: HostRuntime) -> Result<(), Fail> {
    let lines = b"1\t1\taccept\tAnn\n1\t1\taccept\tBob\n2\t1\treject\tBob\n".as_slice();
    let mut book = book_of(rt.alloc(), lines)?;
    let entry = Entry {
        reviewer: Text::copy_of(rt.alloc(), b"Bob")?,
        seq: 2,
        rev: 1,
        word: Word::Reject,
        rank: 0,
    };
    for was_there in [true, false] {
        let found = after_removal(&mut book, &entry);
        assert!(rt; found == (was_there, 1, Verdict::Accept, 2, 2), "{found:?}");
    }
    Ok(())
}

// A book of 601 entries with the seqs 1 to 601, which come out of order.
fn long_book(alloc: Global) -> Result<Book, Fail> {
    let mut book = Book::new(alloc);
    for i in 0..601_u32 {
        let line = format!(in alloc; "{}\t1\taccept\tAnn\n", 1 + i * 7 % 601)?;
        add_entries(alloc, &mut book, line.as_bytes())?;
    }
    Ok(book)
}

// The seqs of the entries are 1, 2 and so on up to this one.
fn has_seqs_to(book: &Book, last: u32) -> bool {
    let mut seq = 0_u32;
    for entry in book.entries() {
        seq = seq.saturating_add(1);
        if entry.seq != seq {
            return false;
        }
    }
    seq == last
}

#[test]
fn many_entries_in_any_order(rt: HostRuntime) -> Result<(), Fail> {
    let book = long_book(rt.alloc())?;
    assert!(rt; has_seqs_to(&book, 601));
    Ok(())
}

// A book of one entry each of 300 reviewers, on revisions 1 to 300.
fn book_of_many(alloc: Global) -> Result<Book, Fail> {
    let mut book = Book::new(alloc);
    for i in 1..301_u32 {
        let line = format!(in alloc; "1\t{i}\taccept\tReviewer {i}\n")?;
        add_entries(alloc, &mut book, line.as_bytes())?;
    }
    Ok(book)
}

#[test]
fn many_reviewers_have_a_word(rt: HostRuntime) -> Result<(), Fail> {
    let book = book_of_many(rt.alloc())?;
    for rev in 1..301 {
        let verdict = book.verdict(rev);
        assert!(rt; verdict == Verdict::Accept, "{rev}: {verdict:?}");
    }
    Ok(())
}
