//! The signs of revisions.

ghost use Rattle.std.specs.Prelude.{◌≡◌, List, ℕ, codes};
ghost use Rattle.redl_io.specs.Sink.{Puts};
ghost use Rattle.redl_tree.specs.Model.View.{nodes_of, item_of, tag_of};
ghost use Rattle.redl_marked.specs.Signs.{sign_begin as sign_begin_of, sign_end as sign_end_of, opening, word_sign, change_sign, pilcrow, start_sign, end_sign, mark_sign, mark_signs, run_signs, para_signs};
ghost use Rattle.redl_marked.specs.Inside.Walks.{item_mark, item_run, item_para};

use itoa::Buffer;
use redl_io::{Failed, Sink, put_piece, put_pieces};
use redl_kinds::RevKind;
use redl_tree::{Elem, Kind, Node, Prop, Trace, Word, is_word};

/// Puts the sign at the start tag of an element: before content, or the whole sign of a row, a cell or a change.
pub(crate) fn put_start_sign<K: Sink>(elem: &Elem, out: &mut K) -> Result<(), Failed>
    ensures { Puts K.told K.faults K.settled K.lenders out.old out.new (start_sign (tag_of elem.now).kind (tag_of elem.now).rev) result }
{
    let number = elem.rev();
    match elem.kind() {
        Kind::Content(trace) => put_opening(trace, number, out),
        Kind::Row(trace) => put_word_sign(trace, number, b"row", out),
        Kind::Cell(trace) => put_word_sign(trace, number, b"cell", out),
        Kind::Change(prop) => put_change_sign(prop, number, out),
        Kind::Plain | Kind::Mark(_) | Kind::Marker => Ok(()),
    }
}

/// Puts the sign at the end tag of an element, behind content.
pub(crate) fn put_end_sign<K: Sink>(elem: &Elem, out: &mut K) -> Result<(), Failed>
    ensures { Puts K.told K.faults K.settled K.lenders out.old out.new (end_sign (tag_of elem.now).kind) result }
{
    match elem.kind() {
        Kind::Content(trace) => put_piece(sign_end(trace), out),
        _ => Ok(()),
    }
}

// How a sign begins.
fn sign_begin(trace: Trace) -> &'static [u8]
    ensures { result.now ≡ sign_begin_of trace }
{
    match trace {
        Trace::Ins => b"{+",
        Trace::Del => b"[-",
        Trace::From => b"[~",
        Trace::To => b"{~",
    }
}

/// How it ends.
pub(crate) fn sign_end(trace: Trace) -> &'static [u8]
    ensures { result.now ≡ sign_end_of trace }
{
    match trace {
        Trace::Ins => b"+}",
        Trace::Del => b"-]",
        Trace::From => b"~]",
        Trace::To => b"~}",
    }
}

fn put_opening<K: Sink>(trace: Trace, number: u32, out: &mut K) -> Result<(), Failed>
    ensures { Puts K.told K.faults K.settled K.lenders out.old out.new (opening trace number) result }
{
    let mut buffer = Buffer::new();
    put_pieces(
        &[sign_begin(trace), buffer.format(number).as_bytes(), b" "],
        out,
    )
}

fn put_word_sign<K: Sink>(trace: Trace, number: u32, word: &[u8], out: &mut K) -> Result<(), Failed>
    ensures { Puts K.told K.faults K.settled K.lenders out.old out.new (word_sign trace number word.now) result }
{
    put_opening(trace, number, out)?;
    put_piece(word, out)?;
    put_piece(sign_end(trace), out)
}

fn put_change_sign<K: Sink>(prop: Prop, number: u32, out: &mut K) -> Result<(), Failed>
    ensures { Puts K.told K.faults K.settled K.lenders out.old out.new (change_sign prop number) result }
{
    let mut buffer = Buffer::new();
    put_pieces(
        &[
            b"{=".as_slice(),
            buffer.format(number).as_bytes(),
            b" ",
            RevKind::Change(prop).name().as_bytes(),
            b"=}",
        ],
        out,
    )
}

/// Puts the signs of the members of a paragraph's mark, given the paragraph's kids: the members are the kids of the `rPr` in its
/// `pPr`.
pub(crate) fn put_para_signs<K: Sink>(kids: &[Node], out: &mut K) -> Result<(), Failed>
    ensures { Puts K.told K.faults K.settled K.lenders out.old out.new (para_signs (nodes_of kids.now)) result }
{
    for kid in kids {
        put_in_para(kid, out)?;
    }
    Ok(())
}

fn put_in_para<K: Sink>(kid: &Node, out: &mut K) -> Result<(), Failed>
    ensures { Puts K.told K.faults K.settled K.lenders out.old out.new (item_para (item_of kid.now)) result }
{
    match kid {
        Node::Elem(elem) if is_word(elem, Word::PPr) => put_run_signs(elem.kids(), out),
        _ => Ok(()),
    }
}

fn put_run_signs<K: Sink>(nodes: &[Node], out: &mut K) -> Result<(), Failed>
    ensures { Puts K.told K.faults K.settled K.lenders out.old out.new (run_signs (nodes_of nodes.now)) result }
{
    for node in nodes {
        put_in_run(node, out)?;
    }
    Ok(())
}

fn put_in_run<K: Sink>(node: &Node, out: &mut K) -> Result<(), Failed>
    ensures { Puts K.told K.faults K.settled K.lenders out.old out.new (item_run (item_of node.now)) result }
{
    match node {
        Node::Elem(elem) if is_word(elem, Word::RPr) => put_mark_signs(elem.kids(), out),
        _ => Ok(()),
    }
}

fn put_mark_signs<K: Sink>(nodes: &[Node], out: &mut K) -> Result<(), Failed>
    ensures { Puts K.told K.faults K.settled K.lenders out.old out.new (mark_signs (nodes_of nodes.now)) result }
{
    for node in nodes {
        put_mark_sign(node, out)?;
    }
    Ok(())
}

fn put_mark_sign<K: Sink>(node: &Node, out: &mut K) -> Result<(), Failed>
    ensures { Puts K.told K.faults K.settled K.lenders out.old out.new (item_mark (item_of node.now)) result }
{
    match node {
        Node::Elem(elem) => put_sign_of_mark(elem, out),
        Node::Bytes(_) | Node::Plain(_) => Ok(()),
    }
}

fn put_sign_of_mark<K: Sink>(elem: &Elem, out: &mut K) -> Result<(), Failed>
    ensures { Puts K.told K.faults K.settled K.lenders out.old out.new (mark_sign (tag_of elem.now).kind (tag_of elem.now).rev) result }
{
    match elem.kind() {
        Kind::Mark(trace) => put_word_sign(trace, elem.rev(), "¶".as_bytes(), out),
        _ => Ok(()),
    }
}
