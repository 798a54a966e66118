//! The reviewers of the list of changes.

ghost use Rattle.std.specs.Prelude.{◌≡◌, Some, bytes_eq, option_map};
ghost use Rattle.redl_io.specs.Sink.{Puts};
ghost use Rattle.redl_page.specs.Changes.{reviewers};
ghost use Rattle.redl_page.specs.Reviewers.{item_at_end, item_before, item_of};
ghost use Rattle.redl_html.specs.Pieces.{pieces_text};

use itoa::Buffer;
use redl_html::put_escaped;
use redl_io::{Failed, Sink, put_piece, put_pieces};
use redl_join::Book;
use redl_journal::Entry;

/// Puts an item for each reviewer of a book, in the order of the book. It goes once over the entries and takes no memory.
pub(crate) fn put_reviewers<K: Sink>(book: &Book, out: &mut K) -> Result<(), Failed>
    ensures { Puts K.told K.faults K.settled K.lenders out.old out.new (pieces_text (reviewers book.now)) result }
{
    let mut last = None;
    for entry in book.entries() {
        put_ended(last, entry, out)?;
        last = Some(entry);
    }
    put_last(last, out)?;
    Ok(())
}

// Puts the item of the reviewer of an entry, if the next entry is another one's.
fn put_ended<K: Sink>(last: Option<&Entry>, next: &Entry, out: &mut K) -> Result<(), Failed>
    ensures { Puts K.told K.faults K.settled K.lenders out.old out.new
        (pieces_text (item_before (option_map (λ last. last.now) last.entry) next.now)) result }
{
    match last {
        Some(last) => put_unless_same(last, next, out),
        None => Ok(()),
    }
}

fn put_unless_same<K: Sink>(last: &Entry, next: &Entry, out: &mut K) -> Result<(), Failed>
    ensures { Puts K.told K.faults K.settled K.lenders out.old out.new (pieces_text (item_before (Some last.now) next.now)) result }
{
    if are_same(last, next) {
        return Ok(());
    }
    put_reviewer(last, out)
}

// Whether two entries are of one reviewer.
fn are_same(last: &Entry, next: &Entry) -> bool
    ensures { result ≡ bytes_eq last.now.reviewer next.now.reviewer }
{
    last.reviewer.as_bytes() == next.reviewer.as_bytes()
}

// Puts the item of the reviewer of the last entry, if there is one.
fn put_last<K: Sink>(last: Option<&Entry>, out: &mut K) -> Result<(), Failed>
    ensures { Puts K.told K.faults K.settled K.lenders out.old out.new (pieces_text (item_at_end (option_map (λ last. last.now) last.entry))) result }
{
    match last {
        Some(last) => put_reviewer(last, out),
        None => Ok(()),
    }
}

// Puts the item of a reviewer of whom this is the last entry.
fn put_reviewer<K: Sink>(last: &Entry, out: &mut K) -> Result<(), Failed>
    ensures { Puts K.told K.faults K.settled K.lenders out.old out.new (pieces_text (item_of last.now)) result }
{
    let mut buffer = Buffer::new();
    let sequence = buffer.format(last.seq).as_bytes();
    let reviewer = last.reviewer.as_bytes();
    put_pieces(&[b"<li data-sequence=\"".as_slice(), sequence, b"\">"], out)?;
    put_escaped(reviewer, out)?;
    put_piece(b"</li>\n", out)
}
