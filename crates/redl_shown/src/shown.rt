//! What bytes show, as a text that goes out.

ghost use Rattle.redl_io.specs.Sink.{Puts};
ghost use Rattle.redl_shown.specs.Shown.{shown};
ghost use Rattle.redl_shown.specs.Pieces.{piece_text};

use crate::parts::start;
use crate::pieces::{ShownPiece, next_shown};
use redl_io::{Failed, Sink, put_piece};

/// Puts what the bytes of a node show: each reference as its character, and of CDATA what is in it, but no comments and no
/// instructions. It takes no memory.
///
/// `Failed` comes only where the sink failed, and then it has only a prefix of what is shown.
pub fn put_shown<K: Sink>(bytes: &[u8], out: &mut K) -> Result<(), Failed>
    ensures { Puts K.told K.faults K.settled K.lenders out.old out.new (shown bytes.now) result }
{
    let mut here = start();
    let mut left = bytes;
    while let Some(step) = next_shown(here, left) {
        put_step(step.piece, out)?;
        here = step.here;
        left = step.rest;
    }
    Ok(())
}

// Puts what a step shows.
fn put_step<K: Sink>(piece: ShownPiece<'_>, out: &mut K) -> Result<(), Failed>
    ensures { Puts K.told K.faults K.settled K.lenders out.old out.new (piece_text piece.entry) result }
{
    match piece {
        ShownPiece::Nothing => Ok(()),
        ShownPiece::Bytes(bytes) => put_piece(bytes, out),
        ShownPiece::Character(character) => put_piece(
            character.encode_utf8(&mut [0; 4]).as_bytes(),
            out,
        ),
    }
}
