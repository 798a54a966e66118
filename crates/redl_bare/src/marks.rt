//! The marks of a unit: those round it that a document has.

ghost use Rattle.std.specs.Prelude.{◌≡◌, ◌<◌, IfSome};
ghost use Rattle.arrayvec.specs.ArrayVec.{array_vec_len};
ghost use Rattle.redl_tree.specs.Model.View.{nodes_of, item_of, tag_of, kids_of};
ghost use Rattle.redl_bare.specs.Marks.{sign_of, own_change, format_mark, own_mark, is_run_change, change_in, run_change, marks_inside};
ghost use Rattle.redl_bare.specs.Inside.Views.{stamp_view, slot_view, own_view, marks_view, without_at};
ghost use Rattle.redl_bare.specs.Inside.Items.{item_change_in, item_change};

use crate::stamps::stamp_in;
use redl_marks::{Mark, Marks, Sign, Stamp};
use redl_tree::{Elem, Kind, Node, Prop, Trace, Word, is_word};

/// Makes marks those of what an element with these marks holds, and gives the place of the one that came to them, if one did.
pub(crate) fn enter<'a>(marks: &mut Marks<'a>, elem: &Elem<'a>) -> Option<usize>
    ensures marks { marks_view marks.new ≡ marks_inside (marks_view marks.old) (tag_of elem.now) (kids_of elem.now) }
    ensures back { without_at result marks.new.list.items ≡ marks.old.list.items }
    ensures within { IfSome result (λ at. at < array_vec_len marks.new.list) }
{
    match own_mark(elem.kind(), elem) {
        Some(mark) => marks.add(mark),
        None => None,
    }
}

// The mark that an element of this kind gives what it holds.
fn own_mark<'a>(kind: Kind, elem: &Elem<'a>) -> Option<Mark<'a>>
    ensures { own_view result ≡ own_mark kind (tag_of elem.now) (kids_of elem.now) }
{
    match kind {
        Kind::Content(trace) => Some(Mark {
            sign: sign_of(trace),
            stamp: stamp_in(elem.tail()),
        }),
        _ => format_mark(elem),
    }
}

fn sign_of(trace: Trace) -> Sign
    ensures { result ≡ sign_of trace }
{
    match trace {
        Trace::Ins => Sign::Inserted,
        Trace::Del => Sign::Deleted,
        Trace::To => Sign::MovedTo,
        Trace::From => Sign::MovedFrom,
    }
}

fn format_mark<'a>(elem: &Elem<'a>) -> Option<Mark<'a>>
    ensures { own_view result ≡ format_mark (own_change (tag_of elem.now) (kids_of elem.now)) }
{
    match own_change(elem) {
        Some(stamp) => Some(Mark {
            sign: Sign::Formatted,
            stamp,
        }),
        None => None,
    }
}

// The change of its properties, where an element is a run that has one.
fn own_change<'a>(elem: &Elem<'a>) -> Option<Stamp<'a>>
    ensures { slot_view result ≡ own_change (tag_of elem.now) (kids_of elem.now) }
{
    if is_word(elem, Word::R) {
        return run_change(elem.kids());
    }
    None
}

fn run_change<'a>(kids: &[Node<'a>]) -> Option<Stamp<'a>>
    ensures { slot_view result ≡ run_change (nodes_of kids.now) }
{
    for node in kids {
        if let Some(stamp) = node_change(node) {
            return Some(stamp);
        }
    }
    None
}

fn node_change<'a>(node: &Node<'a>) -> Option<Stamp<'a>>
    ensures { slot_view result ≡ item_change (item_of node.now) }
{
    match node {
        Node::Elem(elem) if is_word(elem, Word::RPr) => change_in(elem.kids()),
        _ => None,
    }
}

fn change_in<'a>(nodes: &[Node<'a>]) -> Option<Stamp<'a>>
    ensures { slot_view result ≡ change_in (nodes_of nodes.now) }
{
    for node in nodes {
        if let Some(stamp) = node_change_in(node) {
            return Some(stamp);
        }
    }
    None
}

fn node_change_in<'a>(node: &Node<'a>) -> Option<Stamp<'a>>
    ensures { slot_view result ≡ item_change_in (item_of node.now) }
{
    match node {
        Node::Elem(elem) if is_run_change(elem.kind()) => Some(stamp_in(elem.tail())),
        _ => None,
    }
}

fn is_run_change(kind: Kind) -> bool
    ensures { result ≡ is_run_change kind }
{
    matches!(kind, Kind::Change(Prop::Run))
}
