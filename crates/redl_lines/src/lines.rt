//! The lines of each end on standard error.

ghost use Rattle.std.specs.Prelude.{◌≡◌, ◌++◌, codes, decimal, OnOk, OnErr};
ghost use Rattle.std.specs.Io.KnownBytes.{append_known};
ghost use Rattle.std.specs.List.{flat_map};
ghost use Rattle.redl_lines.specs.Ends.{Tells, call_end_view, end_lines, end_view, remark_lines};
ghost use Rattle.redl_lines.specs.Lines.{cause_text, decision_text, gone_line, idle_line, marks_line, not_again_line as not_again_line_of, note_line, one_mark_line, ranked_text, refused_line, bar_text as bar_text_of, why_text as why_text_of};
ghost use Rattle.redl_lines.specs.Remarks.{remarks_view};
ghost use Rattle.redl_io.specs.Sink.{Puts, GrowsByFront, CountsPut};
ghost use Rattle.redl_journal.specs.Journals.{word_text};

use crate::causes::{write_failure, write_misuse};
use crate::end::{CallEnd, End};
use crate::named::write_named;
use crate::note::{Note, Obstacle};
use crate::refused::RefusedEntries;
use crate::remarks::Remarks;
use itoa::Buffer;
use redl_io::{Failed, Sink, Staged, put_piece, put_pieces};
use redl_journal::{Entry, Word};
use redl_kinds::Lock;
use redl_session::{AdmitError, Bar};

/// Writes the lines of a call that ends so. A fault of `err` only shortens them.
pub fn tell<E: Sink>(end: &CallEnd<'_>, err: &mut E)
    ensures { Tells E.told E.faults err.old err.new (end_lines (call_end_view end.now)) }
{
    let _ = write_staged(end, err);
}

// Writes the lines through a stage.
fn write_staged<E: Sink>(end: &CallEnd<'_>, err: &mut E) -> Result<(), Failed>
    ensures all { OnOk result (E.told err.new ≡ append_known (E.told err.old) (end_lines (call_end_view end.now))) }
    ensures front { OnErr result (GrowsByFront (E.told err.old) (E.told err.new) (end_lines (call_end_view end.now))) }
    ensures cause { CountsPut (E.faults err.old) (E.faults err.new) result }
{
    let mut staged = Staged::new(err);
    write_end(end, &mut staged)?;
    staged.finish()
}

fn write_end<K: Sink>(end: &CallEnd<'_>, err: &mut K) -> Result<(), Failed>
    ensures { Puts K.told K.faults K.settled K.lenders err.old err.new (end_lines (call_end_view end.now)) result }
{
    match end {
        CallEnd::Command(end) => write_lines(end, err),
        CallEnd::Misuse(misuse) => write_misuse(misuse, err),
    }
}

fn write_lines<K: Sink>(end: &End<'_>, err: &mut K) -> Result<(), Failed>
    ensures { Puts K.told K.faults K.settled K.lenders err.old err.new (end_lines (end_view end.now)) result }
{
    match end {
        End::Written(remarks) => write_remarks(remarks, err),
        End::Unwritten(remarks) => {
            write_remarks(remarks, err)?;
            put_piece(b"redline: cannot write\n", err)
        }
        End::Failed(failure) => write_failure(failure, err),
    }
}

// The lines of all remarks.
fn write_remarks<K: Sink>(remarks: &Remarks, err: &mut K) -> Result<(), Failed>
    ensures { Puts K.told K.faults K.settled K.lenders err.old err.new (remark_lines (remarks_view remarks.now)) result }
{
    write_refused(&remarks.refused, err)?;
    write_refused(&remarks.second, err)?;
    write_idle(&remarks.idle, err)?;
    write_notes(&remarks.notes, err)
}

// A line for each refused entry.
fn write_refused<K: Sink>(refused: &RefusedEntries, err: &mut K) -> Result<(), Failed>
    ensures { Puts K.told K.faults K.settled K.lenders err.old err.new (flat_map refused_line refused.now) result }
{
    for (entry, why) in refused.causes() {
        write_entry(entry, *why, err)?;
    }
    Ok(())
}

// The line of an entry that was refused for this cause.
fn write_entry<K: Sink>(entry: &Entry, why: AdmitError, err: &mut K) -> Result<(), Failed>
    ensures { Puts K.told K.faults K.settled K.lenders err.old err.new (refused_line (entry.now, why)) result }
{
    write_decision(entry.seq, entry.rev, entry.word, err)?;
    write_rank(entry.rank, err)?;
    write_cause(entry.reviewer.as_bytes(), why_text(why), err)
}

// The seq, the revision and the word of a refused entry.
fn write_decision<K: Sink>(seq: u32, rev: u32, decision: Word, err: &mut K) -> Result<(), Failed>
    ensures { Puts K.told K.faults K.settled K.lenders err.old err.new (decision_text (decimal seq) (decimal rev) (word_text decision)) result }
{
    let mut seq_digits = Buffer::new();
    let mut rev_digits = Buffer::new();
    write_numbers(
        seq_digits.format(seq),
        rev_digits.format(rev),
        word(decision),
        err,
    )
}

fn write_numbers<'a, K: Sink>(
    seq: &'a str,
    rev: &'a str,
    word: &'a [u8],
    err: &mut K,
) -> Result<(), Failed>
    ensures { Puts K.told K.faults K.settled K.lenders err.old err.new (decision_text seq.now rev.now word.now) result }
{
    put_pieces(
        &[
            b"redline: refused ".as_slice(),
            seq.as_bytes(),
            b" ",
            rev.as_bytes(),
            b" ",
            word,
        ],
        err,
    )
}

// The rank of a refused entry, where it is not 0.
fn write_rank<K: Sink>(rank: u8, err: &mut K) -> Result<(), Failed>
    ensures { Puts K.told K.faults K.settled K.lenders err.old err.new (ranked_text rank) result }
{
    if rank == 0 {
        return Ok(());
    }
    let mut digits = Buffer::new();
    write_digits(digits.format(u32::from(rank)), err)
}

fn write_digits<K: Sink>(rank: &str, err: &mut K) -> Result<(), Failed>
    ensures { Puts K.told K.faults K.settled K.lenders err.old err.new (codes " rank " ++ rank.now) result }
{
    put_pieces(&[b" rank ".as_slice(), rank.as_bytes()], err)
}

// The reviewer of a refused entry, and why it was refused.
fn write_cause<K: Sink>(reviewer: &[u8], why: &[u8], err: &mut K) -> Result<(), Failed>
    ensures { Puts K.told K.faults K.settled K.lenders err.old err.new (cause_text reviewer.now why.now) result }
{
    write_named(b" ", reviewer, b": ", err)?;
    put_pieces(&[why, b"\n"], err)
}

// A line for each lock that holds nothing.
fn write_idle<K: Sink>(idle: &[Lock], err: &mut K) -> Result<(), Failed>
    ensures { Puts K.told K.faults K.settled K.lenders err.old err.new (flat_map idle_line idle.now) result }
{
    for lock in idle {
        write_idle_lock(lock, err)?;
    }
    Ok(())
}

fn write_idle_lock<K: Sink>(lock: &Lock, err: &mut K) -> Result<(), Failed>
    ensures { Puts K.told K.faults K.settled K.lenders err.old err.new (idle_line lock.now) result }
{
    match lock {
        Lock::Author(name) => write_idle_author(name.as_bytes(), err),
        Lock::Kind(_) => put_piece(b"redline: note: a lock on a kind holds nothing\n", err),
        Lock::Span(..) => put_piece(b"redline: note: a lock on a span holds nothing\n", err),
    }
}

fn write_idle_author<K: Sink>(author: &[u8], err: &mut K) -> Result<(), Failed>
    ensures { Puts K.told K.faults K.settled K.lenders err.old err.new (idle_line (Lock.Author author.now)) result }
{
    write_named(b"redline: note: nothing by ", author, b" is locked\n", err)
}

// A line for each note.
fn write_notes<K: Sink>(notes: &[Note], err: &mut K) -> Result<(), Failed>
    ensures { Puts K.told K.faults K.settled K.lenders err.old err.new (flat_map note_line notes.now) result }
{
    for note in notes {
        write_note(note, err)?;
    }
    Ok(())
}

fn write_note<K: Sink>(note: &Note, err: &mut K) -> Result<(), Failed>
    ensures { Puts K.told K.faults K.settled K.lenders err.old err.new (note_line note.now) result }
{
    match note {
        Note::Undecided(number) => write_undecided(*number, err),
        Note::Gone(number) => write_gone(*number, err),
        Note::NotAgain(why) => put_piece(not_again_line(*why), err),
    }
}

fn write_undecided<K: Sink>(number: u64, err: &mut K) -> Result<(), Failed>
    ensures { Puts K.told K.faults K.settled K.lenders err.old err.new (note_line (Note.Undecided number)) result }
{
    if number == 1 {
        return write_one_mark(err);
    }
    let mut digits = Buffer::new();
    write_marks(digits.format(number), err)
}

fn write_gone<K: Sink>(number: u32, err: &mut K) -> Result<(), Failed>
    ensures { Puts K.told K.faults K.settled K.lenders err.old err.new (note_line (Note.Gone number)) result }
{
    let mut digits = Buffer::new();
    write_locked(digits.format(number), err)
}

fn not_again_line(why: Obstacle) -> &'static [u8]
    ensures { result.now ≡ not_again_line_of why }
{
    match why {
        Obstacle::Depth => {
            b"redline: note: the result is deeper than 512 and will not be read again\n"
        }
        Obstacle::Bytes => {
            b"redline: note: the result has more than 134217728 bytes and will not be read again\n"
        }
        Obstacle::Meeting => {
            b"redline: note: the result has texts that meet as ]]> and will not be read again\n"
        }
    }
}

fn write_locked<K: Sink>(number: &str, err: &mut K) -> Result<(), Failed>
    ensures { Puts K.told K.faults K.settled K.lenders err.old err.new (gone_line number.now) result }
{
    put_pieces(
        &[
            b"redline: note: locked revision ".as_slice(),
            number.as_bytes(),
            b" went with what was around it\n",
        ],
        err,
    )
}

fn write_one_mark<K: Sink>(err: &mut K) -> Result<(), Failed>
    ensures { Puts K.told K.faults K.settled K.lenders err.old err.new one_mark_line result }
{
    put_piece(
        b"redline: note: 1 mark is left that Redline does not decide: see redline left\n",
        err,
    )
}

fn write_marks<K: Sink>(number: &str, err: &mut K) -> Result<(), Failed>
    ensures { Puts K.told K.faults K.settled K.lenders err.old err.new (marks_line number.now) result }
{
    put_pieces(
        &[
            b"redline: note: ".as_slice(),
            number.as_bytes(),
            b" marks are left that Redline does not decide: see redline left\n",
        ],
        err,
    )
}

// The word as it stands in a journal.
fn word(word: Word) -> &'static [u8]
    ensures { result.now ≡ word_text word }
{
    match word {
        Word::Accept => b"accept",
        Word::Reject => b"reject",
        Word::Withdraw => b"withdraw",
    }
}

// Why an entry is refused.
fn why_text(why: AdmitError) -> &'static [u8]
    ensures { result.now ≡ why_text_of why }
{
    match why {
        AdmitError::Unknown => b"unknown revision",
        AdmitError::Locked(bar) => bar_text(bar),
        AdmitError::NoMemory => b"out of memory",
    }
}

// What bars a revision.
fn bar_text(bar: Bar) -> &'static [u8]
    ensures { result.now ≡ bar_text_of bar }
{
    match bar {
        Bar::Author => b"locked author",
        Bar::Kind => b"locked kind",
        Bar::Span => b"locked span",
    }
}
