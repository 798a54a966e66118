//! A masked text, piece by piece.

ghost use Rattle.std.specs.Prelude.{◌≡◌, ◌++◌, ◌∷◌, ◌<◌, ◌↔◌, [], IsNone, IfSome, length};
ghost use Rattle.redl_reading.specs.Lists.{front, after};
ghost use Rattle.redl_terminal.specs.Masks.{is_plain, masked};

use crate::extent::Extent;
use crate::hidden::{hidden_length, is_plain};
use redl_reading::run;

/// A piece of a masked text, and the bytes that are left.
#[derive(Clone, Copy, Debug)]
pub(crate) struct Step<'a> {
    /// What is shown.
    pub piece: &'a [u8],
    /// The bytes that are left.
    pub rest: &'a [u8],
}

/// The next piece: bytes with which no hidden character begins, a single byte, or the sign for a hidden character. `None`
/// exactly where no bytes are left.
pub(crate) fn next_masked(extent: Extent, bytes: &[u8]) -> Option<Step<'_>>
    ensures none { IsNone result ↔ (bytes.now ≡ []) }
    ensures masked { IfSome result (λ step. masked extent bytes.now ≡ step.piece.now ++ masked extent step.rest.now) }
    ensures shorter { IfSome result (λ step. length step.rest.now < length bytes.now) }
{
    let (first, rest) = bytes.split_first()?;
    if is_plain(extent, *first) {
        return Some(plain_step(extent, bytes));
    }
    Some(first_step(extent, *first, rest, bytes))
}

// The bytes with which no hidden character begins.
fn plain_step(extent: Extent, bytes: &[u8]) -> Step<'_>
    ensures piece { result.piece.now ≡ front (is_plain extent) bytes.now }
    ensures rest { result.rest.now ≡ after (is_plain extent) bytes.now }
{
    let (piece, rest) = run(bytes, |byte| is_plain(extent, byte));
    Step { piece, rest }
}

// The sign for the hidden character that is first, or else the first byte.
fn first_step<'a>(extent: Extent, first: u8, rest: &'a [u8], bytes: &'a [u8]) -> Step<'a>
    requires { bytes.now ≡ first ∷ rest.now }
    ensures masked { masked extent bytes.now ≡ result.piece.now ++ masked extent result.rest.now }
    ensures shorter { length result.rest.now < length bytes.now }
{
    match hidden_length(extent, first, rest) {
        0 => Step {
            piece: &bytes[..1],
            rest,
        },
        length => Step {
            piece: b"?",
            rest: &bytes[length..],
        },
    }
}
