//! Reading the first piece of some bytes.

ghost use Rattle.std.specs.Prelude.{◌≡◌, codes, IfOk, IsErrOf};
ghost use Rattle.redl_grammar.specs.Pieces.{Stands, HasNoPiece};
ghost use Rattle.redl_markup.specs.Reading.{Finds};
ghost use Rattle.redl_grammar.specs.ScanPieces.{piece_at};
ghost use Rattle.redl_markup.specs.PieceViews.{piece_view};

use crate::error::MarkupError;
use crate::item::begins_item;
use crate::name::Name;
use crate::piece::Piece;
use crate::stretch::stretch;
use crate::tag::{end_tag, start_tag};
use redl_grammar::Section;
use redl_reading::skip;
use std::alloc::Global;

#[tactic(auto, unfolding(redl_grammar::specs::ScanPieces::piece_at))]
#[inline(always)]
fn read_piece<'a>(
    alloc: Global,
    list: &mut Vec<Name<'a>>,
    bytes: &'a [u8],
    place: Section,
) -> Result<(Piece<'a>, &'a [u8]), MarkupError>
    ensures { Finds (λ x. (piece_view x.0, x.1.now)) result (piece_at place bytes.entry.now) }
{
    if let Some(rest) = skip(bytes, b"</") {
        return match end_tag(rest) {
            Some((name, space, rest)) => Ok((Piece::End(name, space), rest)),
            None => Err(MarkupError::Unreadable),
        };
    }
    match skip(bytes, b"<") {
        Some(rest) if !begins_item(bytes) => start_tag(alloc, list, rest),
        _ => match stretch(bytes, place) {
            Some((stretch, rest)) => Ok((Piece::Stretch(stretch), rest)),
            None => Err(MarkupError::Unreadable),
        },
    }
}

/// The piece with which the bytes begin at this place, and the bytes after it. A stretch is as long as it can be.
///
/// A start tag takes the list for the names of its attributes, whatever is in it, and leaves a new one. A caller that gives
/// the tag's list back takes memory once for all tags.
///
/// `Unreadable` exactly if the bytes begin with no piece, as when they are empty. `NoMemory` means out of memory.
#[inline(always)]
pub fn next_piece<'a>(
    alloc: Global,
    list: &mut Vec<Name<'a>>,
    bytes: &'a [u8],
    place: Section,
) -> Result<(Piece<'a>, &'a [u8]), MarkupError>
    ensures found { IfOk result (λ x. Stands place bytes.entry.now (piece_view x.0) x.1.now) }
    ensures unreadable { IsErrOf result MarkupError.Unreadable → HasNoPiece place bytes.entry.now }

    // The same as a function on lists, for callers that read one piece after the other.
    ensures read { Finds (λ x. (piece_view x.0, x.1.now)) result (piece_at place bytes.entry.now) }
{
    read_piece(alloc, list, bytes, place)
}
