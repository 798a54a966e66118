//! The last byte of a marked text, which tells whether the next line needs a newline before it. It is looked for from the end,
//! so no more of a story is read than what shows it.

ghost use Rattle.std.specs.Prelude.{◌≡◌, ◌++◌, ℕ, [], not, if◌then◌else◌};
ghost use Rattle.std.specs.List.{last_or};
ghost use Rattle.redl_tree.specs.Model.View.{nodes_of, item_of, tag_of, kids_of};
ghost use Rattle.redl_shown.specs.Shown.{shown};
ghost use Rattle.redl_shown.specs.Pieces.{piece_text};
ghost use Rattle.redl_marked.specs.Signs.{start_sign, end_sign};
ghost use Rattle.redl_marked.specs.MarkedText.{open_start, open_end};
ghost use Rattle.redl_marked.specs.Inside.Walks.{marked, item_marked, inside, start_of, end_of, last_of};

use crate::idle::last_of_idle;
use crate::signs::sign_end;
use crate::summary::{MarkedSummary, inside};
use redl_shown::{ShownPiece, next_shown, start};
use redl_tree::{Elem, Kind, Node, Word, is_named, is_word};

/// The last byte of the marked text of nodes with this summary of their ancestors. `None` exactly where they show nothing.
#[cycle(last)]
pub(crate) fn last_of_nodes(nodes: &[Node], above: MarkedSummary) -> Option<u8>
    ensures { result ≡ last_of (marked above (nodes_of nodes.now)) }
{
    for i in 0..nodes.len() {
        match last_of_node(&nodes[nodes.len() - 1 - i], above) {
            Some(last) => return Some(last),
            None => {}
        }
    }
    None
}

#[cycle(last)]
fn last_of_node(node: &Node, above: MarkedSummary) -> Option<u8>
    ensures { result ≡ last_of (item_marked above (item_of node.now)) }
{
    match node {
        Node::Elem(elem) => last_of_elem(elem, above),
        Node::Bytes(text) if above.text => last_shown(text),
        Node::Bytes(_) => None,
        Node::Plain(plain) => last_of_idle(plain, above),
    }
}

#[cycle(last)]
fn last_of_elem(elem: &Elem, above: MarkedSummary) -> Option<u8>
    ensures { result ≡ last_of (start_of above (tag_of elem.now) ++ (marked (inside (tag_of elem.now) above) (kids_of elem.now) ++ end_of above (tag_of elem.now) (kids_of elem.now))) }
{
    match last_of_end(elem, above) {
        Some(last) => Some(last),
        None => last_of_nodes(elem.kids(), inside(elem, above)).or(last_of_start(elem, above)),
    }
}

// Of what an element shows at its end tag.
fn last_of_end(elem: &Elem, above: MarkedSummary) -> Option<u8>
    ensures { result ≡ last_of (end_of above (tag_of elem.now) (kids_of elem.now)) }
{
    last_of_end_sign(elem.kind()).or(last_of_open_end(elem, above))
}

fn last_of_end_sign(kind: Kind) -> Option<u8>
    ensures { result ≡ last_of (end_sign kind) }
{
    match kind {
        Kind::Content(trace) => last_or(None, sign_end(trace)),
        _ => None,
    }
}

fn last_of_open_end(elem: &Elem, above: MarkedSummary) -> Option<u8>
    ensures { result ≡ last_of (if not above.quiet then open_end (tag_of elem.now) (kids_of elem.now) else []) }
{
    if above.quiet {
        None
    } else if is_word(elem, Word::P) {
        Some(b'\n')
    } else {
        None
    }
}

// Of what an element shows at its start tag.
fn last_of_start(elem: &Elem, above: MarkedSummary) -> Option<u8>
    ensures { result ≡ last_of (start_of above (tag_of elem.now)) }
{
    last_of_open_start(elem, above).or(last_of_start_sign(elem.kind()))
}

fn last_of_open_start(elem: &Elem, above: MarkedSummary) -> Option<u8>
    ensures { result ≡ last_of (if not above.quiet then open_start (tag_of elem.now) else []) }
{
    if above.quiet {
        None
    } else if is_named(elem, b"noBreakHyphen") {
        Some(0x91)
    } else if is_named(elem, b"tab") {
        Some(b'\t')
    } else if is_named(elem, b"br") || is_named(elem, b"cr") {
        Some(b'\n')
    } else {
        None
    }
}

fn last_of_start_sign(kind: Kind) -> Option<u8>
    ensures { (number : ℕ) → result ≡ last_of (start_sign kind number) }
{
    match kind {
        Kind::Content(_) => Some(b' '),
        Kind::Row(trace) => last_or(None, sign_end(trace)),
        Kind::Cell(trace) => last_or(None, sign_end(trace)),
        Kind::Change(_) => Some(b'}'),
        Kind::Plain | Kind::Mark(_) | Kind::Marker => None,
    }
}

/// The last byte that bytes of a node show.
pub(crate) fn last_shown(bytes: &[u8]) -> Option<u8>
    ensures { result ≡ last_of (shown bytes.now) }
{
    let mut here = start();
    let mut left = bytes;
    let mut last = None;
    while let Some(step) = next_shown(here, left) {
        last = last_of_piece(last, step.piece);
        here = step.here;
        left = step.rest;
    }
    last
}

fn last_of_piece(before: Option<u8>, piece: ShownPiece<'_>) -> Option<u8>
    ensures { result ≡ last_or before (piece_text piece.entry) }
{
    match piece {
        ShownPiece::Nothing => before,
        ShownPiece::Bytes(bytes) => last_or(before, bytes),
        ShownPiece::Character(character) => {
            last_or(before, character.encode_utf8(&mut [0; 4]).as_bytes())
        }
    }
}

// The last of these bytes, or the one before them.
fn last_or(before: Option<u8>, bytes: &[u8]) -> Option<u8>
    ensures { result ≡ last_or before bytes.now }
{
    let mut last = before;
    for byte in bytes {
        last = Some(*byte);
    }
    last
}
