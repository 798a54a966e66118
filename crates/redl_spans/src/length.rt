//! How many bytes a text shows.

ghost use Rattle.std.specs.Prelude.{◌≡◌, ◌+◌, IfOk, length};
ghost use Rattle.redl_shown.specs.Pieces.{piece_text};
ghost use Rattle.redl_shown.specs.Shown.{shown};

use redl_shown::{ShownPiece, next_shown, start};
use std::alloc::AllocError;

/// How many bytes a text without tags shows. `Err` means that they are more than memory can hold, here and below.
pub(crate) fn shown_length(bytes: &[u8]) -> Result<usize, AllocError>
    ensures { IfOk result (λ count. count ≡ length (shown bytes.now)) }
{
    let mut count = 0;
    let mut here = start();
    let mut left = bytes;
    while let Some(step) = next_shown(here, left) {
        count = sum(count, piece_length(step.piece))?;
        here = step.here;
        left = step.rest;
    }
    Ok(count)
}

fn piece_length(piece: ShownPiece<'_>) -> usize
    ensures { result ≡ length (piece_text piece.entry) }
{
    match piece {
        ShownPiece::Nothing => 0,
        ShownPiece::Bytes(bytes) => bytes.len(),
        ShownPiece::Character(character) => character.len_utf8(),
    }
}

/// So many more.
pub(crate) fn sum(count: usize, more: usize) -> Result<usize, AllocError>
    ensures { IfOk result (λ sum. sum ≡ count + more) }
{
    match count.checked_add(more) {
        Some(sum) => Ok(sum),
        None => Err(AllocError),
    }
}
