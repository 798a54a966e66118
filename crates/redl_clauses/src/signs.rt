//! Whether nodes hold a sign.

ghost use Rattle.std.specs.Prelude.{◌≡◌, ◌||◌};
ghost use Rattle.redl_tree.specs.Model.IdleTexts.{idle_nodes};
ghost use Rattle.redl_tree.specs.Model.View.{item_of, kids_of, nodes_of, tag_of};
ghost use Rattle.redl_clauses.specs.Signs.{has_sign, is_sign, is_sign_name};
ghost use Rattle.redl_clauses.specs.Inside.Heards.{heard};
ghost use Rattle.redl_clauses.specs.Inside.Signs.{element_has_sign, inside_idle, item_has_sign, sign_shown};

use crate::says::Heard;
use redl_idle::{Shows, show};
use redl_tree::{Elem, Node, Plain, Space, is_quiet};
use std::convert::Infallible;

/// Whether nodes hold a sign, at every depth.
#[cycle(signs)]
pub(crate) fn has_sign(nodes: &[Node]) -> bool
    ensures { result ≡ has_sign (nodes_of nodes.now) }
{
    for node in nodes {
        if node_has_sign(node) {
            return true;
        }
    }
    false
}

#[cycle(signs)]
fn node_has_sign(node: &Node) -> bool
    ensures { result ≡ item_has_sign (item_of node.now) }
{
    match node {
        Node::Elem(elem) => elem_has_sign(elem),
        Node::Plain(plain) => plain_has_sign(plain),
        Node::Bytes(_) => false,
    }
}

#[cycle(signs)]
fn elem_has_sign(elem: &Elem) -> bool
    ensures { result ≡ element_has_sign (tag_of elem.now) (kids_of elem.now) }
{
    !is_quiet(elem) && (is_sign(elem) || has_sign(elem.kids()))
}

fn is_sign(elem: &Elem) -> bool
    ensures { result ≡ is_sign (tag_of elem.now) }
{
    match elem.space() {
        Space::W => is_sign_name(elem.local()),
        _ => false,
    }
}

// Whether an element of WordprocessingML with this local name is a sign.
fn is_sign_name(name: &[u8]) -> bool
    ensures { result ≡ is_sign_name name.now }
{
    match name.len() {
        1 => name == b"p".as_slice(),
        3 => name == b"sym".as_slice(),
        4 => name == b"ptab".as_slice() || name == b"pict".as_slice(),
        6 => name == b"object".as_slice(),
        7 => name == b"drawing".as_slice(),
        10 => name == b"softHyphen".as_slice(),
        16 => name == b"endnoteReference".as_slice(),
        17 => name == b"footnoteReference".as_slice(),
        _ => false,
    }
}

// Whether there is one among the idle elements that a list keeps as text.
fn plain_has_sign(plain: &Plain) -> bool
    ensures { result ≡ has_sign (idle_nodes plain.now) }
{
    let mut signs = Heard { any: false };
    match show(plain, &Below { quiet: false }, &mut signs) {
        Ok(()) => signs.any,
        Err(never) => match never {},
    }
}

// What is known of the parent of some idle nodes.
#[derive(Clone, Copy)]
struct Below {
    // It holds the properties of a run, or has an ancestor that does.
    quiet: bool,
}

impl Below {
    // What is known of an element with this local name.
    fn inside(&self, local: &[u8]) -> Below
        ensures { result ≡ inside_idle self.now local.now }
    {
        Below {
            quiet: self.quiet || local == b"rPr".as_slice(),
        }
    }
}

impl Shows<Heard> for Below {
    ghost use Rattle.redl_idle.specs.Takings.{by_state};
    ghost use Rattle.redl_clauses.specs.Inside.Heards.{heard, heard-nothing, heard-more};
    ghost use Rattle.redl_clauses.specs.Inside.Signs.{sign_rule};

    type Error = Infallible;

    ghost rule = { sign_rule };

    ghost taking = { by_state heard heard-nothing heard-more };

    fn put_bytes(&self, _bytes: &[u8], _signs: &mut Heard) -> Result<(), Infallible> {
        Ok(())
    }

    fn enter(
        &self,
        local: &[u8],
        _tail: &[u8],
        _ahead: &[u8],
        signs: &mut Heard,
    ) -> Result<Below, Infallible> {
        let inside = self.inside(local);
        note(!inside.quiet && is_sign_name(local), signs);
        Ok(inside)
    }

    fn leave(&self, _signs: &mut Heard) -> Result<(), Infallible> {
        Ok(())
    }
}

// Notes an element, which is a sign or not.
fn note(sign: bool, signs: &mut Heard)
    ensures { signs.new ≡ heard signs.old (sign_shown sign) }
{
    signs.any = signs.any || sign;
}
