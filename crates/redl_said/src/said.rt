//! The text of nodes, as an `Ear` hears it: what bytes show, a space for a tab, a break or a new paragraph, and a hyphen.

ghost use Rattle.std.specs.Prelude.{◌≡◌, [], OnOk, true, if◌then◌else◌};
ghost use Rattle.redl_shown.specs.Pieces.{piece_text};
ghost use Rattle.redl_shown.specs.Shown.{shown};
ghost use Rattle.redl_tree.specs.Roles.Names.{is};
ghost use Rattle.redl_tree.specs.Model.View.{nodes_of, item_of, tag_of, kids_of};
ghost use Rattle.redl_said.specs.Said.{all_plain_from, element_said, holds_text, is_break, is_silent, item_said, said, start_said};

use crate::ear::Ear;
use crate::idle::tell_plain;
use redl_shown::{ShownPiece, next_shown, start};
use redl_tree::{Elem, Node, Word, is_named, is_quiet, is_word};
use std::alloc::AllocError;

/// Tells what nodes say, in a line or not. `Err` means out of memory.
#[cycle(said)]
pub fn tell_nodes<E: Ear>(
    nodes: &[Node],
    in_line: bool,
    in_text: bool,
    ear: &mut E,
) -> Result<(), AllocError>
    ensures { OnOk result (ear.new ≡ E.heard ear.old (said in_line in_text (nodes_of nodes.now))) }
{
    for node in nodes {
        if ear.is_full() {
            return Ok(());
        }
        tell_node(node, in_line, in_text, ear)?;
    }
    Ok(())
}

#[cycle(said)]
fn tell_node<E: Ear>(
    node: &Node,
    in_line: bool,
    in_text: bool,
    ear: &mut E,
) -> Result<(), AllocError>
    ensures { OnOk result (ear.new ≡ E.heard ear.old (item_said in_line in_text (item_of node.now))) }
{
    match node {
        Node::Elem(elem) => tell_elem(elem, in_line, ear),
        Node::Bytes(text) => tell_bytes(text, in_text, ear),
        Node::Plain(plain) => tell_plain(plain, in_text, ear),
    }
}

#[cycle(said)]
fn tell_elem<E: Ear>(elem: &Elem, in_line: bool, ear: &mut E) -> Result<(), AllocError>
    ensures { OnOk result (ear.new ≡ E.heard ear.old (element_said in_line (tag_of elem.now) (kids_of elem.now))) }
{
    if is_silent(elem, in_line) {
        return Ok(());
    }
    tell_start(elem, ear)?;
    tell_nodes(elem.kids(), in_line, holds_text(elem), ear)
}

/// Tells what bytes show, where they are text. `Err` means out of memory.
pub fn tell_bytes<E: Ear>(bytes: &[u8], in_text: bool, ear: &mut E) -> Result<(), AllocError>
    ensures { OnOk result (ear.new ≡ E.heard ear.old (if in_text then shown bytes.now else [])) }
{
    if in_text {
        return tell_shown(bytes, ear);
    }
    Ok(())
}

// Tells what bytes show.
fn tell_shown<E: Ear>(bytes: &[u8], ear: &mut E) -> Result<(), AllocError>
    ensures { OnOk result (ear.new ≡ E.heard ear.old (shown bytes.now)) }
{
    if is_all_plain(bytes) {
        return ear.hear(bytes);
    }
    let mut here = start();
    let mut left = bytes;
    while let Some(step) = next_shown(here, left) {
        tell_piece(step.piece, ear)?;
        here = step.here;
        left = step.rest;
    }
    Ok(())
}

// Whether bytes are shown as they are, each of them.
//
// It looks at every byte: so the compiler takes many at a time.
fn is_all_plain(bytes: &[u8]) -> bool
    ensures { result ≡ all_plain_from true bytes.now }
{
    let mut plain = true;
    for byte in bytes {
        plain &= !((*byte == b'<') | (*byte == b'&'));
    }
    plain
}

fn tell_piece<E: Ear>(piece: ShownPiece<'_>, ear: &mut E) -> Result<(), AllocError>
    ensures { OnOk result (ear.new ≡ E.heard ear.old (piece_text piece.entry)) }
{
    match piece {
        ShownPiece::Nothing => Ok(()),
        ShownPiece::Bytes(bytes) => ear.hear(bytes),
        ShownPiece::Character(character) => ear.hear(character.encode_utf8(&mut [0; 4]).as_bytes()),
    }
}

/// Tells what an element says at its start tag. `Err` means out of memory.
pub fn tell_start<E: Ear>(elem: &Elem, ear: &mut E) -> Result<(), AllocError>
    ensures { OnOk result (ear.new ≡ E.heard ear.old (start_said (tag_of elem.now))) }
{
    if is_break(elem) {
        return ear.hear(b" ");
    }
    if is_named(elem, b"noBreakHyphen") {
        return ear.hear(b"\xE2\x80\x91");
    }
    Ok(())
}

fn is_break(elem: &Elem) -> bool
    ensures { result ≡ is_break (tag_of elem.now) }
{
    is_named(elem, b"tab")
        || is_named(elem, b"br")
        || is_named(elem, b"cr")
        || is_word(elem, Word::P)
}

/// Whether the bytes that an element holds are text.
pub fn holds_text(elem: &Elem) -> bool
    ensures { result ≡ holds_text (tag_of elem.now) }
{
    is_named(elem, b"t") || is_word(elem, Word::DelText)
}

/// Whether an element says nothing, in a line or not.
pub(crate) fn is_silent(elem: &Elem, in_line: bool) -> bool
    ensures { result ≡ is_silent in_line (tag_of elem.now) }
{
    is_quiet(elem) || (in_line && is_paragraph(elem))
}

/// Whether an element is a paragraph.
pub fn is_paragraph(elem: &Elem) -> bool
    ensures { result ≡ is "p" (tag_of elem.now) }
{
    is_word(elem, Word::P)
}
