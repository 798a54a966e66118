//! What a chain gives, piece by piece.

ghost use Rattle.std.specs.Prelude.{◌≡◌, ◌&&◌, ◌||◌, ◌∷◌, [], true, Some, IfOk};
ghost use Rattle.redl_paras.specs.Ends.{is_chain, keeps_last};
ghost use Rattle.redl_paras.specs.Pieces.{piece_of, pieces_of, held_nodes, is_other, is_cut, paras_in as paras_in_piece, paras_of};
ghost use Rattle.redl_tree.specs.Decisions.Beside.{are_named, bytes_beside, bytes_of_each};
ghost use Rattle.redl_tree.specs.Decisions.Groups.{given, held_by, grouped};
ghost use Rattle.redl_tree.specs.Model.Kids.{some_element};
ghost use Rattle.redl_tree.specs.Roles.Names.{is};
ghost use Rattle.redl_tree.specs.Model.Nodes.{◌⊕◌};
ghost use Rattle.redl_tree.specs.Rules.CellEnds.{end_of};
ghost use Rattle.redl_tree.specs.Model.View.{nodes_of, item_of};
ghost use Rattle.redl_tree.specs.declared.lists.Reach.TheVariants.{Direct};

use crate::join::{joined, settle, take_up};
use crate::piece::{ChainPiece, Next};
use redl_tree::Node;
use std::alloc::{AllocError, Global};

/// What the pieces of a chain give together, where `next` comes after it (ECMA-376 Part 1, 17.3.1, 17.13.5).
///
/// A paragraph that is cut is joined with the next one of the chain: they become one, with the tag and the properties of
/// the last one, and with all that they hold and all that is between them. A last paragraph that is cut has no such one:
/// it stays, but before another block its bytes alone stay where it holds no element besides its properties. Nodes
/// are moved, never copied. `Err` means out of memory, and the chain is dropped.
pub fn group<'a>(
    alloc: Global,
    chain: Vec<ChainPiece<'a>>,
    next: Next,
) -> Result<Vec<Node<'a>>, AllocError>
    ensures whole { IfOk result (λ nodes. nodes_of nodes.items ≡ grouped (is_other next) (pieces_of chain.entry.items)) }

    // The bytes beside the properties of the paragraphs come in their order.
    ensures bytes { are_named (pieces_of chain.entry.items) ≡ true
        → IfOk result (λ nodes. bytes_beside (nodes_of nodes.items) ≡ bytes_of_each (pieces_of chain.entry.items)) }

    // A paragraph is left where the last one isn't cut, or no other block comes next; and where one is left, the last
    // block is one.
    ensures left { is_chain (pieces_of chain.entry.items) ≡ true → keeps_last (is_other next) (pieces_of chain.entry.items) ≡ true
        → IfOk result (λ nodes. some_element (is "p") (nodes_of nodes.items) ≡ true) }
    ensures end { is_chain (pieces_of chain.entry.items) ≡ true
        → IfOk result (λ nodes. some_element (is "p") (nodes_of nodes.items) ≡ true → end_of Direct (nodes_of nodes.items) ≡ Some true) }
{
    let mut made = Vec::new(alloc);
    let mut held = None;
    let mut left = count_paras(&chain);
    for piece in chain {
        left -= paras_in(&piece);
        held = add(alloc, piece, held, left > 0, next, &mut made)?;
    }
    Ok(made)
}

// How many paragraphs are in a chain.
fn count_paras(chain: &[ChainPiece]) -> usize
    ensures { result ≡ paras_of chain.now }
{
    let mut count = 0;
    for piece in chain {
        count += paras_in(piece);
    }
    count
}

fn paras_in(piece: &ChainPiece) -> usize
    ensures { result ≡ paras_in_piece piece.now }
{
    match piece {
        ChainPiece::Para { .. } => 1,
        ChainPiece::Thin(_) => 0,
    }
}

// Adds a piece's own nodes, and gives what the next paragraph takes over. `more`: a paragraph comes later in
// the chain.
fn add<'a>(
    alloc: Global,
    piece: ChainPiece<'a>,
    held: Option<Vec<Node<'a>>>,
    more: bool,
    next: Next,
    made: &mut Vec<Node<'a>>,
) -> Result<Option<Vec<Node<'a>>>, AllocError>
    ensures made { IfOk result (λ _. nodes_of made.new.items ≡ nodes_of made.old.items
        ⊕ given (piece_of piece.entry) (held_nodes held.entry) (is_cut (piece_of piece.entry) && more) (more || is_other next)) }
    ensures held { IfOk result (λ later. held_nodes later ≡ held_by (piece_of piece.entry) (held_nodes held.entry) (is_cut (piece_of piece.entry) && more)) }
{
    match piece {
        ChainPiece::Thin(node) => match held {
            None => {
                made.push(node)?;
                Ok(None)
            }
            Some(held) => Ok(Some(take_up(alloc, Some(held), one(alloc, node)?)?)),
        },
        ChainPiece::Para { elem, cut } => {
            if cut && more {
                return Ok(Some(take_up(alloc, held, elem.into_kids(alloc))?));
            }
            let para = joined(alloc, held, elem)?;
            settle(alloc, made, para, cut && next == Next::Other)?;
            Ok(None)
        }
    }
}

fn one(alloc: Global, node: Node) -> Result<Vec<Node>, AllocError>
    ensures { IfOk result (λ nodes. nodes_of nodes.items ≡ nodes_of (node.entry ∷ [])) }
{
    let mut nodes = Vec::with_capacity(alloc, 1)?;
    nodes.push(node)?;
    Ok(nodes)
}
