//! What the text of a document shows, as it is written in the page.

ghost use Rattle.redl_io.specs.Sink.{Puts};
ghost use Rattle.redl_shown.specs.Pieces.{piece_text};
ghost use Rattle.redl_shown.specs.Shown.{shown};
ghost use Rattle.redl_page_stories.specs.Document.{bytes_pieces};
ghost use Rattle.redl_html.specs.Escaping.{escaped};
ghost use Rattle.redl_html.specs.Pieces.{pieces_text};

use crate::place::PageSummary;
use redl_html::put_escaped;
use redl_io::{Failed, Sink};
use redl_shown::{ShownPiece, next_shown, start};

/// Puts what the bytes of a node show that has this place. It takes no memory.
pub(crate) fn put_bytes<K: Sink>(
    place: PageSummary,
    bytes: &[u8],
    out: &mut K,
) -> Result<(), Failed>
    ensures { Puts K.told K.faults K.settled K.lenders out.old out.new (pieces_text (bytes_pieces shown place bytes.now)) result }
{
    if place.shows {
        return put_shown(bytes, out);
    }
    Ok(())
}

/// Puts what bytes show. It takes no memory.
pub(crate) fn put_shown<K: Sink>(bytes: &[u8], out: &mut K) -> Result<(), Failed>
    ensures { Puts K.told K.faults K.settled K.lenders out.old out.new (escaped (shown bytes.now)) result }
{
    let mut here = start();
    let mut left = bytes;
    while let Some(step) = next_shown(here, left) {
        put_step(step.piece, out)?;
        here = step.here;
        left = step.rest;
    }
    Ok(())
}

fn put_step<K: Sink>(piece: ShownPiece<'_>, out: &mut K) -> Result<(), Failed>
    ensures { Puts K.told K.faults K.settled K.lenders out.old out.new (escaped (piece_text piece.entry)) result }
{
    match piece {
        ShownPiece::Nothing => Ok(()),
        ShownPiece::Bytes(bytes) => put_escaped(bytes, out),
        ShownPiece::Character(character) => {
            put_escaped(character.encode_utf8(&mut [0; 4]).as_bytes(), out)
        }
    }
}
