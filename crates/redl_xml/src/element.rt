//! One element, read to its end.

ghost use Rattle.std.specs.Prelude.{◌≡◌, ◌≤◌, IfOk, IfSome, Some};
ghost use Rattle.redl_tree.specs.Model.View.{nodes_of};
ghost use Rattle.redl_markup.specs.Reading.{Finds};
ghost use Rattle.redl_grammar.specs.declared.section.Section.TheVariants.{InElement};
ghost use Rattle.redl_grammar.specs.ScanPieces.{piece_at};
ghost use Rattle.redl_markup.specs.PieceViews.{piece_view};
ghost use Rattle.redl_xml.specs.Inside.Buildings.{building_view};
ghost use Rattle.redl_xml.specs.Inside.Passing.{GoesAhead};
ghost use Rattle.redl_xml.specs.Inside.Elements.{element_at};
ghost use Rattle.redl_xml.specs.Inside.Sizes.{element_sizes};

use crate::building::Building;
use crate::idle::TryState;
use crate::sizes::{Limits, Sizes};
use redl_grammar::Section;
use redl_markup::{MarkupError, Name, Piece, next_piece};
use redl_tree::Node;
use std::alloc::{AllocError, Global};

/// An element that was read.
#[derive(Drop)]
pub(crate) struct Element<'a> {
    /// The element alone; nothing past a limit.
    pub(crate) nodes: Vec<Node<'a>>,
    /// How deep it goes, and how many nodes it has.
    pub(crate) sizes: Sizes,
    /// The bytes after it.
    pub(crate) rest: &'a [u8],
}

// The bytes ahead, and the piece with which they begin with the bytes after it, if that was read.
#[derive(Drop)]
struct Ahead<'a> {
    rest: &'a [u8],
    next: Option<(Piece<'a>, &'a [u8])>,
}

// Passes over nodes in which no walk finds anything, if the bytes begin with some, and counts them.
fn pass_over<'a>(
    alloc: Global,
    limits: Limits,
    building: &mut Building<'a>,
    sizes: &mut Sizes,
    tries: &mut TryState<'a>,
    bytes: &'a [u8],
) -> Result<Ahead<'a>, AllocError>
    ensures ahead { IfOk result (λ ahead. GoesAhead limits (building_view building.old) (building_view building.new) sizes.old sizes.new bytes.entry.now ahead.rest.now) }
    ensures next { IfOk result (λ ahead. IfSome ahead.next (λ x. piece_at InElement ahead.rest.now ≡ Some (piece_view x.0, x.1.now))) }
{
    let tried = building.pass_over(alloc, tries, bytes)?;
    let Some(idle) = tried.idle else {
        return Ok(Ahead {
            rest: bytes,
            next: tried.next,
        });
    };
    sizes.add_nodes(limits.nodes, idle.nodes, building.open.len(), idle.deepest);
    building.drop_past_limits(limits, *sizes);
    Ok(Ahead {
        rest: idle.rest,
        next: tried.next,
    })
}

// The piece ahead, and the bytes after it.
#[inline(always)]
fn piece_ahead<'a>(
    alloc: Global,
    list: &mut Vec<Name<'a>>,
    ahead: Ahead<'a>,
) -> Result<(Piece<'a>, &'a [u8]), MarkupError>
    requires { IfSome ahead.next (λ x. piece_at InElement ahead.rest.now ≡ Some (piece_view x.0, x.1.now)) }
    ensures { Finds (λ x. (piece_view x.0, x.1.now)) result (piece_at InElement ahead.entry.rest.now) }
{
    match ahead.next {
        Some(found) => Ok(found),
        None => next_piece(alloc, list, ahead.rest, Section::InElement),
    }
}

/// The element with which the bytes begin.
///
/// Its nodes are kept up to a limit. Past that it is read to its end all the same, since only a text that has a tree is
/// too large.
pub(crate) fn read_element(
    alloc: Global,
    limits: Limits,
    bytes: &[u8],
) -> Result<Element<'_>, MarkupError>
    ensures sizes { Finds (λ x. ((x.sizes.deepest, x.sizes.nodes), x.rest.now)) result (element_sizes limits.nodes bytes.now) }
    ensures nodes { IfOk result (λ x. x.sizes.deepest ≤ limits.depth → x.sizes.nodes ≤ limits.nodes → element_at bytes.now ≡ Some (nodes_of x.nodes.items, x.rest.now)) }
{
    let mut building = Building::new(alloc);
    let mut sizes = Sizes {
        deepest: 0,
        nodes: 0,
    };
    let mut rest = bytes;
    let mut tries = TryState::new(alloc, bytes);
    loop {
        let ahead = pass_over(alloc, limits, &mut building, &mut sizes, &mut tries, rest)?;
        let (piece, next) = piece_ahead(alloc, &mut tries.list, ahead)?;
        sizes.add_piece(limits.nodes, &piece, building.open.len() + 1);
        building.place(alloc, &mut tries.list, piece)?;
        building.drop_past_limits(limits, sizes);
        rest = next;
        if building.open.is_empty() {
            return Ok(Element {
                nodes: building.kids,
                sizes,
                rest,
            });
        }
    }
}
