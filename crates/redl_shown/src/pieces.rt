//! What bytes show, piece by piece.

ghost use Rattle.std.specs.Prelude.{◌≡◌, ◌<◌, ◌∷◌, ◌++◌, ◌↔◌, [], IsNone, IfSome, length, take, if◌then◌else◌};
ghost use Rattle.redl_reading.specs.Lists.{front, after};
ghost use Rattle.redl_markup.specs.Decoding.{character_text};
ghost use Rattle.redl_grammar.specs.References.{reference_at};
ghost use Rattle.redl_shown.specs.Shown.{byte_shown, first_shown, character_shown, shown_from, is_plain};
ghost use Rattle.redl_shown.specs.Pieces.{piece_text};

use crate::parts::{Here, Part, after_byte, begins, begins_item, is_in_characters};
use redl_markup::read_reference;
use redl_reading::run;

/// What a step shows.
#[derive(Clone, Copy, Debug)]
pub enum ShownPiece<'a> {
    /// Nothing, as in a comment.
    Nothing,
    /// These bytes, as they are.
    Bytes(&'a [u8]),
    /// The character of a reference.
    Character(char),
}

/// A step over the bytes of a node: what it shows, what the next byte is in, and the bytes that are left.
#[derive(Clone, Copy, Debug)]
pub struct Step<'a> {
    /// What it shows.
    pub piece: ShownPiece<'a>,
    /// What the next byte is in.
    pub here: Here,
    /// The bytes that are left.
    pub rest: &'a [u8],
}

/// The next step over bytes of a node, the first of which is in `here`: a run of characters that are shown as they are, or a
/// single byte. The steps together show what the bytes show. `None` exactly where no bytes are left.
pub fn next_shown(here: Here, bytes: &[u8]) -> Option<Step<'_>>
    ensures none { IsNone result ↔ (bytes.now ≡ []) }
    ensures shown { IfSome result (λ step. shown_from here bytes.now ≡ piece_text step.piece ++ shown_from step.here step.rest.now) }
    ensures shorter { IfSome result (λ step. length step.rest.now < length bytes.now) }
{
    let (first, rest) = bytes.split_first()?;
    if is_in_characters(here) && is_plain(*first) {
        return Some(plain_step(here, bytes));
    }
    Some(Step {
        piece: byte_piece(here, *first, rest, bytes),
        here: after_byte(here, *first, rest, bytes),
        rest,
    })
}

// A byte that character data shows as it is.
fn is_plain(byte: u8) -> bool
    ensures { result ≡ is_plain byte }
{
    !(byte == b'<' || byte == b'&')
}

fn plain_step(here: Here, bytes: &[u8]) -> Step<'_>
    ensures piece { piece_text result.piece ≡ front is_plain bytes.now }
    ensures here { result.here ≡ here }
    ensures rest { result.rest.now ≡ after is_plain bytes.now }
{
    let (plain, rest) = run(bytes, |b| is_plain(b));
    Step {
        piece: ShownPiece::Bytes(plain),
        here,
        rest,
    }
}

// What the next byte shows.
fn byte_piece<'a>(here: Here, first: u8, rest: &'a [u8], left: &'a [u8]) -> ShownPiece<'a>
    requires { left.now ≡ first ∷ rest.now }
    ensures { piece_text result ≡ byte_shown here first rest.now }
{
    if here.skip == 0 {
        return first_piece(here.part, first, rest, left);
    }
    ShownPiece::Nothing
}

fn first_piece<'a>(part: Part, first: u8, rest: &'a [u8], left: &'a [u8]) -> ShownPiece<'a>
    requires { left.now ≡ first ∷ rest.now }
    ensures { piece_text result ≡ first_shown part first rest.now }
{
    match part {
        Part::Characters => character_piece(first, rest, left),
        Part::Reference | Part::Comment | Part::Instruction => ShownPiece::Nothing,
        Part::Cdata => first_unless(begins(left, b"]]>"), left),
    }
}

// The first byte, unless something else begins with it.
fn first_unless(begins: bool, left: &[u8]) -> ShownPiece<'_>
    requires { 0 < length left.now }
    ensures { piece_text result ≡ (if begins then [] else take 1 left.now) }
{
    if begins {
        return ShownPiece::Nothing;
    }
    ShownPiece::Bytes(&left[..1])
}

fn character_piece<'a>(first: u8, rest: &'a [u8], left: &'a [u8]) -> ShownPiece<'a>
    requires { left.now ≡ first ∷ rest.now }
    ensures { piece_text result ≡ character_shown first rest.now }
{
    if first == b'&' {
        return reference_piece(rest);
    }
    first_unless(begins_item(left), left)
}

// The character of a reference, given what follows its `&`.
fn reference_piece(rest: &[u8]) -> ShownPiece<'_>
    ensures { piece_text result ≡ character_text (reference_at rest.now) }
{
    match read_reference(rest) {
        Some((character, _)) => ShownPiece::Character(character),
        None => ShownPiece::Nothing,
    }
}
