//! Nodes that are read from the front of their text, one after the other, without memory.

ghost use Rattle.std.specs.Prelude.{◌≡◌, ◌<◌, ◌-◌, ◌+◌, ◌++◌, ◌^◌, true, length, Some, None, IfSome, IsNone};
ghost use Rattle.redl_reading.specs.Steps.{Gives};
ghost use Rattle.redl_grammar.specs.Names.{name_text};
ghost use Rattle.redl_markup.specs.PieceViews.{bare_view};
ghost use Rattle.redl_tree.specs.declared.kinds.Space.TheVariants.{W};
ghost use Rattle.redl_tree.specs.Model.Nodes.{no_nodes, in_front};
ghost use Rattle.redl_tree.specs.Model.Folds.{nodes_in, Reads, plain_start};
ghost use Rattle.redl_tree.specs.Model.IdleTexts.{idle_nodes};
ghost use Rattle.redl_laid.specs.Inside.Fronts.{HasKids, parted, depth_with, last_white};
ghost use Rattle.redl_laid.specs.Firsts.{first_item, AreShorter};

use redl_markup::{BarePiece, BareTag, known_piece};
use redl_reading::before;
use redl_tree::{Plain, Space, Tag};
use std::marker::Model;

/// Nodes of one list as they stand in the input. All their elements are of WordprocessingML and in no revision.
#[derive(Drop)]
pub struct Laid<'a> {
    text: &'a [u8],
}

impl<'a> Model for Laid<'a> {
    ghost use Rattle.std.specs.Prelude.{◌<◌, ◌^◌, ℕ, List, length};
    ghost use Rattle.redl_tree.specs.declared.kinds.Space.TheVariants.{W};
    ghost use Rattle.redl_tree.specs.Model.Folds.{Reads};

    ghost Value = { List ℕ };

    ghost view = { λ laid. laid.text.now };

    ghost invariant = { λ laid. Reads W laid.text.now × (length laid.text.now < 2 ^ 32) };
}

/// The first of some nodes.
#[derive(Drop)]
pub enum First<'a> {
    /// A stretch of bytes without a tag.
    Bytes(&'a [u8]),
    /// An element.
    Elem(LaidElem<'a>),
}

/// An element whose kids are read from their text. `close` is `None` for `/>` in its start tag, else the white space after the name
/// in its end tag.
#[derive(Drop)]
pub struct LaidElem<'a> {
    /// Its start tag.
    pub tag: Tag<'a>,
    /// How it is closed.
    pub close: Option<&'a [u8]>,
    /// Its kids.
    pub kids: Laid<'a>,
}

// How many elements are open after a piece.
fn depth_after(piece: &BarePiece<'_>, depth: usize) -> usize
    requires { depth < 2 ^ 64 - 1 }
    ensures { result ≡ depth_with (bare_view piece.now) depth }
{
    match piece {
        BarePiece::Start(_) => depth + 1,
        BarePiece::End(_, _) => depth.saturating_sub(1),
        BarePiece::Empty(_) | BarePiece::Stretch(_) => depth,
    }
}

// The white space in an end tag, where no other element is open.
fn last_white<'a>(piece: &BarePiece<'a>, depth: usize) -> Option<&'a [u8]>
    ensures { Gives (λ white. white.now) result (last_white (bare_view piece.now) depth) }
{
    match piece {
        BarePiece::End(_, white) if depth == 0 => Some(white),
        _ => None,
    }
}

// The text of an element's kids, the white space in its end tag, and the bytes after that, given the bytes after its start tag.
fn end_of_kids(bytes: &[u8]) -> Option<(&[u8], &[u8], &[u8])>
    requires { HasKids W bytes.now }
    ensures { (kids : HasKids W bytes.now) → Gives (λ x. (x.0.now, x.1.now, x.2.now)) result (parted kids) }
{
    let mut depth: usize = 0;
    let mut rest = bytes;
    loop {
        let (piece, behind) = known_piece(rest)?;
        if let Some(white) = last_white(&piece, depth) {
            return Some((before(bytes, rest), white, behind));
        }
        depth = depth_after(&piece, depth);
        rest = behind;
    }
}

fn small(n: usize) -> u32
    requires { n < 2 ^ 32 }
    ensures { result ≡ n }
{
    n as u32
}

// The start tag of an element of WordprocessingML that is in no revision.
#[tactic(auto, using(redl_tree::proofs::Reading::Starts::is_cut))]
fn plain_tag<'a>(tag: &BareTag<'a>) -> Tag<'a>
    requires { length (name_text tag.now.name ++ tag.now.tail) < 2 ^ 32 }
    ensures { result ≡ plain_start tag.now.name W tag.now.tail }
{
    let text = tag.text();
    let prefix = small(tag.name().prefix.len());
    let name = small(text.len() - tag.tail().len());
    Tag::new(text, prefix, name, Space::W)
}

// The first node of a text, and those after it. `None` exactly where there is none.
fn first_in(text: &[u8]) -> Option<(First<'_>, Laid<'_>)>
    requires reads { Reads W text.now }
    requires short { length text.now < 2 ^ 32 }
    ensures none { IsNone result → nodes_in W text.now ≡ no_nodes }
    ensures some { IfSome result (λ x. nodes_in W text.now ≡ in_front (first_item x.0) (nodes_in W x.1)) }
    ensures shorter { IfSome result (λ x. AreShorter x.0 x.1 text.now) }
{
    if text.is_empty() {
        return None;
    }
    let (piece, rest) = known_piece(text)?;
    match piece {
        BarePiece::Stretch(bytes) => Some((First::Bytes(bytes), Laid::new(rest))),
        BarePiece::Empty(tag) => {
            let elem = LaidElem {
                tag: plain_tag(&tag),
                close: None,
                kids: Laid::new(b""),
            };
            Some((First::Elem(elem), Laid::new(rest)))
        }
        BarePiece::Start(tag) => {
            let (kids, white, rest) = end_of_kids(rest)?;
            let elem = LaidElem {
                tag: plain_tag(&tag),
                close: Some(white),
                kids: Laid::new(kids),
            };
            Some((First::Elem(elem), Laid::new(rest)))
        }
        BarePiece::End(_, _) => None,
    }
}

impl<'a> Laid<'a> {
    /// The nodes that a list keeps as this text.
    #[tactic(auto, using(redl_tree::proofs::Idle::Items::idle_reads, redl_tree::proofs::Idle::Items::laid_nodes))]
    pub fn of(plain: &Plain<'a>) -> Laid<'a>
        ensures { nodes_in W result ≡ idle_nodes plain.now }
    {
        Laid::new(plain.text())
    }

    // The nodes that this text is.
    fn new(text: &'a [u8]) -> Laid<'a>
        requires reads { Reads W text.now }
        requires short { length text.now < 2 ^ 32 }
        ensures { result ≡ text.entry.now }
    {
        Laid { text }
    }

    /// The first node, and those after it. `None` exactly where there is none.
    pub fn first(&self) -> Option<(First<'a>, Laid<'a>)>
        ensures none { IsNone result → nodes_in W self.now ≡ no_nodes }
        ensures some { IfSome result (λ x. nodes_in W self.now ≡ in_front (first_item x.0) (nodes_in W x.1)) }
        ensures shorter { IfSome result (λ x. AreShorter x.0 x.1 self.now) }
    {
        first_in(self.text)
    }
}
