//! The signs of notes.

ghost use Rattle.std.specs.Prelude.{◌≡◌, ◌<◌, decimal, replicate};
ghost use Rattle.redl_io.specs.Sink.{Puts};
ghost use Rattle.redl_html.specs.Escaping.{escaped};
ghost use Rattle.redl_html.specs.Pieces.{pieces_text};
ghost use Rattle.redl_numerals.specs.Numerals.{roman, roman_digit};
ghost use Rattle.redl_page_stories.specs.Notes.{endnote_sign, footnote_sign, note_pieces, sign_shown, small_roman};
ghost use Rattle.redl_places.specs.Views.{signs_of};

use itoa::Buffer;
use redl_html::put_escaped;
use redl_io::{Failed, Sink, put_piece};
use redl_order::value_in;
use redl_places::{NoteSign, NoteSigns};

/// Puts the sign of the footnote that an element with this tail names or is, and its end. It takes no memory.
pub(crate) fn put_footnote<K: Sink>(
    signs: &NoteSigns,
    tail: &[u8],
    out: &mut K,
) -> Result<(), Failed>
    ensures { Puts K.told K.faults K.settled K.lenders out.old out.new (pieces_text (note_pieces (footnote_sign (signs_of signs.now) tail.now))) result }
{
    put_counted(signs.footnote(value_in(tail, b"id")), out)?;
    put_piece(b"</sup>", out)
}

/// Puts that of the endnote.
pub(crate) fn put_endnote<K: Sink>(
    signs: &NoteSigns,
    tail: &[u8],
    out: &mut K,
) -> Result<(), Failed>
    ensures { Puts K.told K.faults K.settled K.lenders out.old out.new (pieces_text (note_pieces (endnote_sign (signs_of signs.now) tail.now))) result }
{
    put_roman_counted(signs.endnote(value_in(tail, b"id")), out)?;
    put_piece(b"</sup>", out)
}

fn put_counted<K: Sink>(sign: Option<NoteSign>, out: &mut K) -> Result<(), Failed>
    ensures { Puts K.told K.faults K.settled K.lenders out.old out.new (escaped (sign_shown decimal sign)) result }
{
    match sign {
        None => Ok(()),
        Some(NoteSign::Own) => put_piece(b"*", out),
        Some(NoteSign::Count(count)) => put_decimal(count, out),
    }
}

fn put_roman_counted<K: Sink>(sign: Option<NoteSign>, out: &mut K) -> Result<(), Failed>
    ensures { Puts K.told K.faults K.settled K.lenders out.old out.new (escaped (sign_shown small_roman sign)) result }
{
    match sign {
        None => Ok(()),
        Some(NoteSign::Own) => put_piece(b"*", out),
        Some(NoteSign::Count(count)) => put_roman(count, out),
    }
}

fn put_decimal<K: Sink>(count: usize, out: &mut K) -> Result<(), Failed>
    ensures { Puts K.told K.faults K.settled K.lenders out.old out.new (escaped (decimal count)) result }
{
    put_escaped(Buffer::new().format(count).as_bytes(), out)
}

fn put_roman<K: Sink>(count: usize, out: &mut K) -> Result<(), Failed>
    ensures { Puts K.told K.faults K.settled K.lenders out.old out.new (escaped (small_roman count)) result }
{
    if count >= 1 && count < 4000 {
        return put_letters(count, out);
    }
    put_decimal(count, out)
}

fn put_letters<K: Sink>(count: usize, out: &mut K) -> Result<(), Failed>
    requires { count < 4000 }
    ensures { Puts K.told K.faults K.settled K.lenders out.old out.new (escaped (roman 32 count)) result }
{
    put_escaped(thousands(count / 1000), out)?;
    put_escaped(hundreds(count / 100 % 10), out)?;
    put_escaped(tens(count / 10 % 10), out)?;
    put_escaped(units(count % 10), out)
}

fn thousands(digit: usize) -> &'static [u8]
    requires { digit < 4 }
    ensures { result.now ≡ replicate digit 109 }
{
    match digit {
        0 => b"",
        1 => b"m",
        2 => b"mm",
        _ => b"mmm",
    }
}

fn hundreds(digit: usize) -> &'static [u8]
    ensures { result.now ≡ roman_digit 99 100 109 digit }
{
    match digit {
        0 => b"",
        1 => b"c",
        2 => b"cc",
        3 => b"ccc",
        4 => b"cd",
        5 => b"d",
        6 => b"dc",
        7 => b"dcc",
        8 => b"dccc",
        _ => b"cm",
    }
}

fn tens(digit: usize) -> &'static [u8]
    ensures { result.now ≡ roman_digit 120 108 99 digit }
{
    match digit {
        0 => b"",
        1 => b"x",
        2 => b"xx",
        3 => b"xxx",
        4 => b"xl",
        5 => b"l",
        6 => b"lx",
        7 => b"lxx",
        8 => b"lxxx",
        _ => b"xc",
    }
}

fn units(digit: usize) -> &'static [u8]
    ensures { result.now ≡ roman_digit 105 118 120 digit }
{
    match digit {
        0 => b"",
        1 => b"i",
        2 => b"ii",
        3 => b"iii",
        4 => b"iv",
        5 => b"v",
        6 => b"vi",
        7 => b"vii",
        8 => b"viii",
        _ => b"ix",
    }
}
