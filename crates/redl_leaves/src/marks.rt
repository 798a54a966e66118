//! Paragraphs whose mark has a member.

ghost use Rattle.std.specs.Prelude.{◌≡◌};
ghost use Rattle.redl_leaves.specs.Inside.Marks.{is_mark_item, is_marked_run, is_marked_para, has_run_mark, has_para_mark};
ghost use Rattle.redl_tree.specs.Leaves.Slots.{has_mark};
ghost use Rattle.redl_tree.specs.Model.View.{nodes_of, item_of};

use redl_tree::{Kind, Node, Word, is_word};

/// Whether a paragraph with these kids has a member in its mark.
pub(crate) fn is_marked(kids: &[Node]) -> bool
    ensures { result ≡ has_mark (nodes_of kids.now) }
{
    for kid in kids {
        if is_marked_para(kid) {
            return true;
        }
    }
    false
}

fn is_marked_para(kid: &Node) -> bool
    ensures { result ≡ is_marked_para (item_of kid.now) }
{
    match kid {
        Node::Elem(elem) => is_word(elem, Word::PPr) && marks_in_props(elem.kids()),
        Node::Bytes(_) | Node::Plain(_) => false,
    }
}

fn marks_in_props(kids: &[Node]) -> bool
    ensures { result ≡ has_para_mark (nodes_of kids.now) }
{
    for kid in kids {
        if is_marked_run(kid) {
            return true;
        }
    }
    false
}

fn is_marked_run(kid: &Node) -> bool
    ensures { result ≡ is_marked_run (item_of kid.now) }
{
    match kid {
        Node::Elem(elem) => is_word(elem, Word::RPr) && marks_in_run(elem.kids()),
        Node::Bytes(_) | Node::Plain(_) => false,
    }
}

fn marks_in_run(kids: &[Node]) -> bool
    ensures { result ≡ has_run_mark (nodes_of kids.now) }
{
    for kid in kids {
        if is_mark(kid) {
            return true;
        }
    }
    false
}

fn is_mark(kid: &Node) -> bool
    ensures { result ≡ is_mark_item (item_of kid.now) }
{
    match kid {
        Node::Elem(elem) => matches!(elem.kind(), Kind::Mark(_)),
        Node::Bytes(_) | Node::Plain(_) => false,
    }
}
