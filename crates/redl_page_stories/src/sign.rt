//! The element of the page for each member of a revision.

ghost use Rattle.std.specs.Prelude.{◌≡◌, ◌++◌, codes, decimal};
ghost use Rattle.redl_io.specs.Sink.{Puts};
ghost use Rattle.redl_tree.specs.Model.View.{tag_of};
ghost use Rattle.redl_html.specs.Pieces.{pieces_text};
ghost use Rattle.redl_page_stories.specs.Signs.{after, author_at, before, cell_after_author, cell_before_author, change_after_author, change_before_author, content_before_author, content_end, edge, mark_after_author, mark_before_author, member, row_after_author, row_before_author, sign_text};

use itoa::Buffer;
use redl_html::put_escaped;
use redl_index::Index;
use redl_io::{Failed, Sink, put_piece, put_pieces};
use redl_tree::{Elem, Kind, Prop, Trace, Word, is_word};

/// Puts the element of a member of this kind. `Failed` means that the sink failed.
pub(crate) fn put_member<K: Sink>(
    index: &Index,
    kind: Kind,
    rev: u32,
    out: &mut K,
) -> Result<(), Failed>
    ensures { Puts K.told K.faults K.settled K.lenders out.old out.new (pieces_text (member index.now kind rev)) result }
{
    put_sign(index, text_before(kind), rev, text_after(kind), out)
}

/// Puts what leads from the source of a paired move to its target, or back, where one of them starts.
pub(crate) fn put_edge<K: Sink>(index: &Index, elem: &Elem, out: &mut K) -> Result<(), Failed>
    ensures { Puts K.told K.faults K.settled K.lenders out.old out.new (pieces_text (edge index.now (tag_of elem.now))) result }
{
    if is_word(elem, Word::MoveFromRangeStart) {
        return put_link(
            index,
            b"<a id=\"from-",
            elem.rev(),
            b"\" href=\"#to-",
            b"\">moved away</a>",
            out,
        );
    }
    if is_word(elem, Word::MoveToRangeStart) {
        return put_link(
            index,
            b"<a id=\"to-",
            elem.rev(),
            b"\" href=\"#from-",
            b"\">moved here</a>",
            out,
        );
    }
    Ok(())
}

fn put_link<K: Sink>(
    index: &Index,
    id: &[u8],
    rev: u32,
    target: &[u8],
    after: &[u8],
    out: &mut K,
) -> Result<(), Failed>
    ensures { Puts K.told K.faults K.settled K.lenders out.old out.new
        (id.now ++ (decimal rev ++ (target.now ++ (decimal rev ++ sign_text index.now (codes "\" data-revision=\"") rev after.now)))) result }
{
    let mut buffer = Buffer::new();
    let digits = buffer.format(rev).as_bytes();
    put_pieces(&[id, digits, target, digits], out)?;
    put_sign(index, b"\" data-revision=\"", rev, after, out)
}

// Puts an element with the number and the author of a revision, between these texts.
fn put_sign<K: Sink>(
    index: &Index,
    before: &[u8],
    rev: u32,
    after: &[u8],
    out: &mut K,
) -> Result<(), Failed>
    ensures { Puts K.told K.faults K.settled K.lenders out.old out.new (sign_text index.now before.now rev after.now) result }
{
    let mut buffer = Buffer::new();
    let digits = buffer.format(rev).as_bytes();
    put_pieces(&[before, digits, b"\" data-author=\""], out)?;
    put_escaped(author_at(index, rev), out)?;
    put_piece(after, out)
}

// The author of the revision with this number.
fn author_at(index: &Index, rev: u32) -> &[u8]
    ensures { result.now ≡ author_at index.now rev }
{
    match index.get(rev) {
        Some(revision) => revision.author.as_bytes(),
        None => b"",
    }
}

fn text_before(kind: Kind) -> &'static [u8]
    ensures { result.now ≡ codes (before kind) }
{
    match kind {
        Kind::Plain => b"",
        Kind::Marker => b"",
        Kind::Content(trace) => content_before_author(trace),
        Kind::Mark(trace) => mark_before_author(trace),
        Kind::Row(trace) => row_before_author(trace),
        Kind::Cell(trace) => cell_before_author(trace),
        Kind::Change(prop) => change_before_author(prop),
    }
}

fn content_before_author(trace: Trace) -> &'static [u8]
    ensures { result.now ≡ codes (content_before_author trace) }
{
    match trace {
        Trace::Ins => b"<ins class=\"text\" data-revision=\"",
        Trace::Del => b"<del class=\"text\" data-revision=\"",
        Trace::To => b"<ins class=\"text move\" data-revision=\"",
        Trace::From => b"<del class=\"text move\" data-revision=\"",
    }
}

fn mark_before_author(trace: Trace) -> &'static [u8]
    ensures { result.now ≡ codes (mark_before_author trace) }
{
    match trace {
        Trace::Ins => b"<ins class=\"mark\" data-revision=\"",
        Trace::Del => b"<del class=\"mark\" data-revision=\"",
        Trace::To => b"<ins class=\"mark move\" data-revision=\"",
        Trace::From => b"<del class=\"mark move\" data-revision=\"",
    }
}

fn row_before_author(trace: Trace) -> &'static [u8]
    ensures { result.now ≡ codes (row_before_author trace) }
{
    match trace {
        Trace::Ins => b"<td class=\"edge\"><ins class=\"row\" data-revision=\"",
        Trace::Del => b"<td class=\"edge\"><del class=\"row\" data-revision=\"",
        Trace::To => b"<td class=\"edge\"><ins class=\"row move\" data-revision=\"",
        Trace::From => b"<td class=\"edge\"><del class=\"row move\" data-revision=\"",
    }
}

fn cell_before_author(trace: Trace) -> &'static [u8]
    ensures { result.now ≡ codes (cell_before_author trace) }
{
    match trace {
        Trace::Ins => b"<ins class=\"cell\" data-revision=\"",
        Trace::Del => b"<del class=\"cell\" data-revision=\"",
        Trace::To => b"<ins class=\"cell move\" data-revision=\"",
        Trace::From => b"<del class=\"cell move\" data-revision=\"",
    }
}

fn change_before_author(prop: Prop) -> &'static [u8]
    ensures { result.now ≡ codes (change_before_author prop) }
{
    match prop {
        Prop::Run => b"<span class=\"props\" data-revision=\"",
        Prop::Para => b"<span class=\"props\" data-revision=\"",
        Prop::Sect => b"<span class=\"props\" data-revision=\"",
        Prop::Cell => b"<span class=\"props\" data-revision=\"",
        Prop::Table => b"<caption><span class=\"props\" data-revision=\"",
        Prop::Except => b"<td class=\"edge\"><span class=\"props\" data-revision=\"",
        Prop::Row => b"<td class=\"edge\"><span class=\"props\" data-revision=\"",
    }
}

fn text_after(kind: Kind) -> &'static [u8]
    ensures { result.now ≡ codes (after kind) }
{
    match kind {
        Kind::Plain => b"",
        Kind::Marker => b"",
        Kind::Content(_) => b"\">",
        Kind::Mark(trace) => mark_after_author(trace),
        Kind::Row(trace) => row_after_author(trace),
        Kind::Cell(trace) => cell_after_author(trace),
        Kind::Change(prop) => change_after_author(prop),
    }
}

fn mark_after_author(trace: Trace) -> &'static [u8]
    ensures { result.now ≡ codes (mark_after_author trace) }
{
    match trace {
        Trace::Ins => b"\">&para;</ins>",
        Trace::To => b"\">&para;</ins>",
        Trace::Del => b"\">&para;</del>",
        Trace::From => b"\">&para;</del>",
    }
}

fn row_after_author(trace: Trace) -> &'static [u8]
    ensures { result.now ≡ codes (row_after_author trace) }
{
    match trace {
        Trace::Ins => b"\">row</ins></td>",
        Trace::To => b"\">row</ins></td>",
        Trace::Del => b"\">row</del></td>",
        Trace::From => b"\">row</del></td>",
    }
}

fn cell_after_author(trace: Trace) -> &'static [u8]
    ensures { result.now ≡ codes (cell_after_author trace) }
{
    match trace {
        Trace::Ins => b"\">cell</ins>",
        Trace::To => b"\">cell</ins>",
        Trace::Del => b"\">cell</del>",
        Trace::From => b"\">cell</del>",
    }
}

fn change_after_author(prop: Prop) -> &'static [u8]
    ensures { result.now ≡ codes (change_after_author prop) }
{
    match prop {
        Prop::Run => b"\">run-props</span>",
        Prop::Para => b"\">para-props</span>",
        Prop::Sect => b"\">sect-props</span>",
        Prop::Table => b"\">table-props</span></caption>",
        Prop::Except => b"\">except-props</span></td>",
        Prop::Row => b"\">row-props</span></td>",
        Prop::Cell => b"\">cell-props</span>",
    }
}

/// What ends the element of run content.
pub(crate) fn content_end(trace: Trace) -> &'static [u8]
    ensures { result.now ≡ codes (content_end trace) }
{
    match trace {
        Trace::Ins => b"</ins>",
        Trace::To => b"</ins>",
        Trace::Del => b"</del>",
        Trace::From => b"</del>",
    }
}
