//! The list of changes.

ghost use Rattle.std.specs.Prelude.{◌≡◌, ◌==◌, ◌++◌, [], ℕ, All, IfSome, codes, decimal, length, map};
ghost use Rattle.std.specs.List.{flat_map};
ghost use Rattle.std.specs.Map.Iter.{deref};
ghost use Rattle.redl_io.specs.Sink.{Puts};
ghost use Rattle.redl_kinds.specs.KindNames.{kind_name};
ghost use Rattle.redl_index.specs.Revisions.{IsListable};
ghost use Rattle.redl_join.specs.LastWords.{last_words, words_on};
ghost use Rattle.redl_formats.specs.Dates.{date_text, moment_text};
ghost use Rattle.redl_stamp.specs.Moment.{IsMoment};
ghost use Rattle.redl_page.specs.Changes.{change, change_head, change_links, change_state, changes, item_words, locked_before, rank_words, remarks_attribute, saying, saying_end, verdict_before, word_after, word_before, words_text};
ghost use Rattle.redl_html.specs.Escaping.{escaped};
ghost use Rattle.redl_html.specs.Pieces.{pieces_text};

use crate::item::ItemWords;
use itoa::Buffer;
use redl_formats::moment_text;
use redl_html::put_escaped;
use redl_index::{Index, Revision};
use redl_io::{Failed, Sink, Text, put_piece, put_pieces};
use redl_join::{Book, LastWords, Verdict};
use redl_journal::{Entry, Word};

/// Puts an item for each revision in the order of the numbers, with what the book decides on it, whether it is locked, these words on
/// it, and the last words of its reviewers. It takes no memory.
pub(crate) fn put_changes<K: Sink>(
    index: &Index,
    book: &Book,
    words: &LastWords<'_>,
    locked: &[bool],
    said: &[ItemWords],
    out: &mut K,
) -> Result<(), Failed>
    requires words { (rev : ℕ) → words_on words.now rev ≡ last_words book.now rev }
    requires locked { length locked.now ≡ length index.now }
    requires said { length said.now ≡ length index.now }
    ensures { Puts K.told K.faults K.settled K.lenders out.old out.new (pieces_text (changes book.now index.now locked.now said.now)) result }
{
    put_each(index.revisions(), book, words, locked, said, out)
}

fn put_each<K: Sink>(
    revisions: &[Revision],
    book: &Book,
    words: &LastWords<'_>,
    locked: &[bool],
    said: &[ItemWords],
    out: &mut K,
) -> Result<(), Failed>
    requires told { All IsListable revisions.now }
    requires words { (rev : ℕ) → words_on words.now rev ≡ last_words book.now rev }
    requires locked { length locked.now ≡ length revisions.now }
    requires said { length said.now ≡ length revisions.now }
    ensures { Puts K.told K.faults K.settled K.lenders out.old out.new (pieces_text (changes book.now revisions.now locked.now said.now)) result }
{
    for place in 0..revisions.len() {
        let revision = &revisions[place];
        let verdict = book.verdict(revision.number);
        put_change(
            revision,
            verdict,
            locked[place],
            &said[place],
            words.on(revision.number),
            out,
        )?;
    }
    Ok(())
}

fn put_change<K: Sink>(
    revision: &Revision,
    verdict: Verdict,
    locked: bool,
    said: &ItemWords,
    words: &[&Entry],
    out: &mut K,
) -> Result<(), Failed>
    requires { IsListable revision.now }
    ensures { Puts K.told K.faults K.settled K.lenders out.old out.new (pieces_text (change revision.now verdict locked said.now (map deref words.now))) result }
{
    put_change_head(revision, out)?;
    put_links(said, out)?;
    put_change_state(verdict, locked, out)?;
    put_item_words(said, out)?;
    put_sayings(words, out)?;
    put_piece(b"</li>\n", out)
}

fn put_change_head<K: Sink>(revision: &Revision, out: &mut K) -> Result<(), Failed>
    requires { IsListable revision.now }
    ensures { Puts K.told K.faults K.settled K.lenders out.old out.new (pieces_text (change_head revision.now)) result }
{
    put_number_and_kind(revision, out)?;
    put_author_and_date(revision, out)
}

fn put_number_and_kind<K: Sink>(revision: &Revision, out: &mut K) -> Result<(), Failed>
    requires { IsListable revision.now }
    ensures { Puts K.told K.faults K.settled K.lenders out.old out.new
        ((codes "<li id=\"revision-" ++ decimal revision.now.number) ++ (codes "\" data-kind=\"" ++ escaped (kind_name revision.now.kind))) result }
{
    let kind = revision.kind.name().as_bytes();
    put_number(revision.number, out)?;
    put_attribute(b"\" data-kind=\"", kind, out)
}

fn put_author_and_date<K: Sink>(revision: &Revision, out: &mut K) -> Result<(), Failed>
    requires { IsListable revision.now }
    ensures { Puts K.told K.faults K.settled K.lenders out.old out.new
        ((codes "\" data-author=\"" ++ escaped revision.now.author) ++ (codes "\" data-date=\"" ++ escaped (date_text revision.now.seconds))) result }
{
    let author = revision.author.as_bytes();
    put_attribute(b"\" data-author=\"", author, out)?;
    put_date(revision.seconds, out)
}

fn put_number<K: Sink>(number: u32, out: &mut K) -> Result<(), Failed>
    ensures { Puts K.told K.faults K.settled K.lenders out.old out.new (codes "<li id=\"revision-" ++ decimal number) result }
{
    let mut buffer = Buffer::new();
    let digits = buffer.format(number).as_bytes();
    put_pieces(&[b"<li id=\"revision-".as_slice(), digits], out)
}

/// Puts what comes before a text from outside, and the text.
pub(crate) fn put_attribute<K: Sink>(before: &[u8], text: &[u8], out: &mut K) -> Result<(), Failed>
    ensures { Puts K.told K.faults K.settled K.lenders out.old out.new (before.now ++ escaped text.now) result }
{
    put_piece(before, out)?;
    put_escaped(text, out)
}

fn put_date<K: Sink>(seconds: Option<i64>, out: &mut K) -> Result<(), Failed>
    requires { IfSome seconds IsMoment }
    ensures { Puts K.told K.faults K.settled K.lenders out.old out.new (codes "\" data-date=\"" ++ escaped (date_text seconds)) result }
{
    match seconds {
        Some(seconds) => put_moment(seconds, out),
        None => put_attribute(b"\" data-date=\"", b"-", out),
    }
}

fn put_moment<K: Sink>(seconds: i64, out: &mut K) -> Result<(), Failed>
    requires { IsMoment seconds }
    ensures { Puts K.told K.faults K.settled K.lenders out.old out.new (codes "\" data-date=\"" ++ escaped (moment_text seconds)) result }
{
    let text = moment_text(seconds);
    put_attribute(b"\" data-date=\"", &text, out)
}

// Puts the edit that a revision belongs to, and the comments on it.
fn put_links<K: Sink>(said: &ItemWords, out: &mut K) -> Result<(), Failed>
    ensures { Puts K.told K.faults K.settled K.lenders out.old out.new (pieces_text (change_links said.now)) result }
{
    put_edit(said.edit, out)?;
    put_remark_ids(&said.remarks, out)
}

fn put_edit<K: Sink>(edit: u32, out: &mut K) -> Result<(), Failed>
    ensures { Puts K.told K.faults K.settled K.lenders out.old out.new (codes "\" data-edit=\"" ++ (decimal edit ++ [])) result }
{
    let mut buffer = Buffer::new();
    let digits = buffer.format(edit).as_bytes();
    put_pieces(&[b"\" data-edit=\"".as_slice(), digits], out)
}

fn put_remark_ids<K: Sink>(ids: &Text, out: &mut K) -> Result<(), Failed>
    ensures { Puts K.told K.faults K.settled K.lenders out.old out.new (pieces_text (remarks_attribute ids.now)) result }
{
    let bytes = ids.as_bytes();
    if bytes.is_empty() {
        return Ok(());
    }
    put_attribute(b"\" data-remarks=\"", bytes, out)
}

fn put_change_state<K: Sink>(verdict: Verdict, locked: bool, out: &mut K) -> Result<(), Failed>
    ensures { Puts K.told K.faults K.settled K.lenders out.old out.new (pieces_text (change_state verdict locked)) result }
{
    put_piece(verdict_before(verdict), out)?;
    put_piece(locked_before(locked), out)
}

fn verdict_before(verdict: Verdict) -> &'static [u8]
    ensures { result.now ≡ codes (verdict_before verdict) }
{
    match verdict {
        Verdict::Undecided => b"\" data-verdict=\"open\" data-locked=\"",
        Verdict::Accept => b"\" data-verdict=\"accept\" data-locked=\"",
        Verdict::Reject => b"\" data-verdict=\"reject\" data-locked=\"",
        Verdict::Disputed => b"\" data-verdict=\"disputed\" data-locked=\"",
    }
}

fn locked_before(locked: bool) -> &'static [u8]
    ensures { result.now ≡ codes (locked_before locked) }
{
    match locked {
        true => b"yes\">",
        false => b"no\">",
    }
}

// Puts the clause, the place and what is changed, where they say anything.
fn put_item_words<K: Sink>(said: &ItemWords, out: &mut K) -> Result<(), Failed>
    ensures { Puts K.told K.faults K.settled K.lenders out.old out.new (pieces_text (item_words said.now)) result }
{
    put_words(b"<p class=\"clause\"><bdi>", &said.clause, out)?;
    put_words(b"<p class=\"place\"><bdi>", &said.place, out)?;
    put_words(b"<p class=\"changed\"><bdi>", &said.changed, out)
}

// Puts a paragraph with this text from outside, where it says anything.
fn put_words<K: Sink>(before: &[u8], text: &Text, out: &mut K) -> Result<(), Failed>
    ensures { Puts K.told K.faults K.settled K.lenders out.old out.new (words_text before.now text.now) result }
{
    let bytes = text.as_bytes();
    if bytes.is_empty() {
        return Ok(());
    }
    put_attribute(before, bytes, out)?;
    put_piece(b"</bdi></p>", out)
}

fn put_sayings<K: Sink>(words: &[&Entry], out: &mut K) -> Result<(), Failed>
    ensures { Puts K.told K.faults K.settled K.lenders out.old out.new (pieces_text (flat_map saying (map deref words.now))) result }
{
    for entry in words {
        put_saying(entry, out)?;
    }
    Ok(())
}

fn put_saying<K: Sink>(entry: &Entry, out: &mut K) -> Result<(), Failed>
    ensures { Puts K.told K.faults K.settled K.lenders out.old out.new (pieces_text (saying entry.now)) result }
{
    let mut buffer = Buffer::new();
    let rank = buffer.format(entry.rank).as_bytes();
    let reviewer = entry.reviewer.as_bytes();
    put_pieces(&[word_before(entry.word), rank, b"\"><bdi>"], out)?;
    put_escaped(reviewer, out)?;
    put_saying_end(entry.word, entry.rank, out)
}

// Puts what comes after the name of a reviewer: the word and the rank in words.
fn put_saying_end<K: Sink>(word: Word, rank: u8, out: &mut K) -> Result<(), Failed>
    ensures { Puts K.told K.faults K.settled K.lenders out.old out.new (pieces_text (saying_end word rank)) result }
{
    put_piece(word_after(word), out)?;
    put_rank_words(rank, out)?;
    put_piece(b"</p>", out)
}

fn put_rank_words<K: Sink>(rank: u8, out: &mut K) -> Result<(), Failed>
    ensures { Puts K.told K.faults K.settled K.lenders out.old out.new (pieces_text (rank_words rank)) result }
{
    if is_lowest(rank) {
        return Ok(());
    }
    put_rank(rank, out)
}

fn is_lowest(rank: u8) -> bool
    ensures { result ≡ (rank == 0) }
{
    rank == 0
}

fn put_rank<K: Sink>(rank: u8, out: &mut K) -> Result<(), Failed>
    ensures { Puts K.told K.faults K.settled K.lenders out.old out.new (codes " with rank " ++ (decimal rank ++ [])) result }
{
    let mut buffer = Buffer::new();
    let digits = buffer.format(rank).as_bytes();
    put_pieces(&[b" with rank ".as_slice(), digits], out)
}

fn word_before(word: Word) -> &'static [u8]
    ensures { result.now ≡ codes (word_before word) }
{
    match word {
        Word::Accept => b"<p data-word=\"accept\" data-rank=\"",
        Word::Reject => b"<p data-word=\"reject\" data-rank=\"",
        Word::Withdraw => b"<p data-word=\"withdraw\" data-rank=\"",
    }
}

fn word_after(word: Word) -> &'static [u8]
    ensures { result.now ≡ codes (word_after word) }
{
    match word {
        Word::Accept => b"</bdi>: accepted",
        Word::Reject => b"</bdi>: rejected",
        Word::Withdraw => b"</bdi>: withdrawn",
    }
}
