//! Texts from a document, as they are written in a line.

ghost use Rattle.std.specs.Prelude.{◌≡◌, IfOk};
ghost use Rattle.redl_io.specs.Sink.{Puts};
ghost use Rattle.redl_reading.specs.Lists.{front, after};
ghost use Rattle.redl_shown.specs.Pieces.{piece_text};
ghost use Rattle.redl_shown.specs.Shown.{shown};
ghost use Rattle.redl_bare.specs.BareText.{byte_escaped, escaped};
ghost use Rattle.redl_bare.specs.Inside.Escapes.{is_plain};

use crate::clean::are_clean;
use redl_io::{Failed, Sink, put_piece};
use redl_reading::run;
use redl_shown::{ShownPiece, next_shown, start};

/// Puts a text with its backslashes, tabs, newlines and carriage returns escaped. It takes no memory.
pub(crate) fn put_escaped<K: Sink>(text: &[u8], out: &mut K) -> Result<(), Failed>
    ensures { Puts K.told K.faults K.settled K.lenders out.old out.new (escaped text.now) result }
{
    if are_clean(text) {
        return put_piece(text, out);
    }
    let mut left = text;
    while let Some((first, rest)) = left.split_first() {
        put_byte(*first, out)?;
        left = put_plain(rest, out)?;
    }
    Ok(())
}

// Puts the next bytes that are written as they are, in one piece, and gives those after them.
fn put_plain<'a, K: Sink>(bytes: &'a [u8], out: &mut K) -> Result<&'a [u8], Failed>
    ensures puts { Puts K.told K.faults K.settled K.lenders out.old out.new (front is_plain bytes.now) result }
    ensures rest { IfOk result (λ rest. rest.now ≡ after is_plain bytes.now) }
{
    let (plain, rest) = run(bytes, is_plain);
    put_piece(plain, out)?;
    Ok(rest)
}

fn is_plain(byte: u8) -> bool
    ensures { result ≡ is_plain byte }
{
    !matches!(byte, b'\\' | b'\t' | b'\n' | b'\r')
}

fn put_byte<K: Sink>(byte: u8, out: &mut K) -> Result<(), Failed>
    ensures { Puts K.told K.faults K.settled K.lenders out.old out.new (byte_escaped byte) result }
{
    match byte {
        b'\\' => put_piece(b"\\\\", out),
        b'\t' => put_piece(b"\\t", out),
        b'\n' => put_piece(b"\\n", out),
        b'\r' => put_piece(b"\\r", out),
        byte => put_piece(&[byte], out),
    }
}

/// Puts what bytes of a document show, escaped. It takes no memory.
pub(crate) fn put_shown<K: Sink>(bytes: &[u8], out: &mut K) -> Result<(), Failed>
    ensures { Puts K.told K.faults K.settled K.lenders out.old out.new (escaped (shown bytes.now)) result }
{
    if are_clean(bytes) {
        return put_piece(bytes, out);
    }
    let mut here = start();
    let mut left = bytes;
    while let Some(step) = next_shown(here, left) {
        put_step(step.piece, out)?;
        here = step.here;
        left = step.rest;
    }
    Ok(())
}

fn put_step<K: Sink>(piece: ShownPiece<'_>, out: &mut K) -> Result<(), Failed>
    ensures { Puts K.told K.faults K.settled K.lenders out.old out.new (escaped (piece_text piece.entry)) result }
{
    match piece {
        ShownPiece::Nothing => Ok(()),
        ShownPiece::Bytes(bytes) => put_escaped(bytes, out),
        ShownPiece::Character(character) => put_escaped(
            character.encode_utf8(&mut [0; 4]).as_bytes(),
            out,
        ),
    }
}
