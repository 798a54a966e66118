//! The list of levels.

ghost use Rattle.std.specs.Prelude.{◌≡◌, ◌++◌, codes, decimal};
ghost use Rattle.std.specs.List.{flat_map};
ghost use Rattle.redl_io.specs.Sink.{Puts};
ghost use Rattle.redl_html.specs.Pieces.{pieces_text};
ghost use Rattle.redl_page_numbers.specs.Pieces.{format_name, format_pieces, legal_end, level_end, level_head, level_list, level_numbers, level_pieces, picture_end, signed_text, text_if_any, width_pieces};

use crate::put_rows::put_number;
use crate::row::LevelRow;
use itoa::Buffer;
use redl_html::put_escaped;
use redl_io::{Failed, Sink, put_piece, put_pieces};
use redl_numerals::{Format, Number};

/// Puts the list of levels, if there are any.
pub(crate) fn put_level_list<K: Sink>(rows: &[LevelRow], out: &mut K) -> Result<(), Failed>
    ensures { Puts K.told K.faults K.settled K.lenders out.old out.new (pieces_text (level_list rows.now)) result }
{
    if rows.is_empty() {
        return Ok(());
    }
    put_piece(b"<ol class=\"levels\" hidden>\n", out)?;
    put_levels(rows, out)?;
    put_piece(b"</ol>\n", out)
}

fn put_levels<K: Sink>(rows: &[LevelRow], out: &mut K) -> Result<(), Failed>
    ensures { Puts K.told K.faults K.settled K.lenders out.old out.new (pieces_text (flat_map level_pieces rows.now)) result }
{
    for row in rows {
        put_level(row, out)?;
    }
    Ok(())
}

fn put_level<K: Sink>(row: &LevelRow, out: &mut K) -> Result<(), Failed>
    ensures { Puts K.told K.faults K.settled K.lenders out.old out.new (pieces_text (level_pieces row.now)) result }
{
    put_head(row, out)?;
    put_numbers(row, out)?;
    put_format(row.format, out)?;
    put_end(row, out)
}

fn put_head<K: Sink>(row: &LevelRow, out: &mut K) -> Result<(), Failed>
    ensures { Puts K.told K.faults K.settled K.lenders out.old out.new (pieces_text (level_head row.now)) result }
{
    put_number(b"<li data-num=\"", row.num, out)?;
    put_number(b"\" data-list=\"", row.list, out)?;
    put_number(b"\" data-level=\"", row.level, out)
}

fn put_numbers<K: Sink>(row: &LevelRow, out: &mut K) -> Result<(), Failed>
    ensures { Puts K.told K.faults K.settled K.lenders out.old out.new (pieces_text (level_numbers row.now)) result }
{
    put_signed(b"\" data-start=\"", row.start, out)?;
    put_if_any(b"\" data-again=\"", row.again, out)?;
    put_if_any(b"\" data-restart=\"", row.restart, out)
}

// Puts what comes before a number, and the number, if there is one.
fn put_if_any<K: Sink>(before: &[u8], number: Option<Number>, out: &mut K) -> Result<(), Failed>
    ensures { Puts K.told K.faults K.settled K.lenders out.old out.new (text_if_any before.now number) result }
{
    match number {
        Some(number) => put_signed(before, number, out),
        None => Ok(()),
    }
}

fn put_signed<K: Sink>(before: &[u8], number: Number, out: &mut K) -> Result<(), Failed>
    ensures { Puts K.told K.faults K.settled K.lenders out.old out.new (before.now ++ signed_text number) result }
{
    match number {
        Number::Plus(above) => put_whole(before, above, out),
        Number::Minus(below) => put_minus(before, below, out),
    }
}

fn put_whole<K: Sink>(before: &[u8], number: u64, out: &mut K) -> Result<(), Failed>
    ensures { Puts K.told K.faults K.settled K.lenders out.old out.new (before.now ++ decimal number) result }
{
    let mut buffer = Buffer::new();
    let digits = buffer.format(number).as_bytes();
    put_pieces(&[before, digits], out)
}

fn put_minus<K: Sink>(before: &[u8], number: u64, out: &mut K) -> Result<(), Failed>
    ensures { Puts K.told K.faults K.settled K.lenders out.old out.new (before.now ++ (codes "-" ++ decimal number)) result }
{
    put_piece(before, out)?;
    put_whole(b"-", number, out)
}

fn put_format<K: Sink>(format: Format, out: &mut K) -> Result<(), Failed>
    ensures { Puts K.told K.faults K.settled K.lenders out.old out.new (pieces_text (format_pieces format)) result }
{
    put_piece(format_name(format), out)?;
    put_width(format, out)
}

fn put_width<K: Sink>(format: Format, out: &mut K) -> Result<(), Failed>
    ensures { Puts K.told K.faults K.settled K.lenders out.old out.new (pieces_text (width_pieces format)) result }
{
    match format {
        Format::Padded(width) => put_number(b"", width, out),
        _ => Ok(()),
    }
}

fn format_name(format: Format) -> &'static [u8]
    ensures { result.now ≡ codes (format_name format) }
{
    match format {
        Format::Decimal => b"\" data-format=\"decimal",
        Format::DecimalZero => b"\" data-format=\"decimalZero",
        Format::Padded(_) => b"\" data-format=\"padded\" data-width=\"",
        Format::UpperRoman => b"\" data-format=\"upperRoman",
        Format::LowerRoman => b"\" data-format=\"lowerRoman",
        Format::UpperLetter => b"\" data-format=\"upperLetter",
        Format::LowerLetter => b"\" data-format=\"lowerLetter",
        Format::Ordinal => b"\" data-format=\"ordinal",
        Format::Nothing => b"\" data-format=\"none",
        Format::Bullet => b"\" data-format=\"bullet",
    }
}

fn put_end<K: Sink>(row: &LevelRow, out: &mut K) -> Result<(), Failed>
    ensures { Puts K.told K.faults K.settled K.lenders out.old out.new (pieces_text (level_end row.now)) result }
{
    put_piece(legal_end(row.is_legal), out)?;
    put_piece(picture_end(row.has_picture), out)?;
    put_escaped(row.text.as_bytes(), out)?;
    put_piece(b"</li>\n", out)
}

fn legal_end(is_legal: bool) -> &'static [u8]
    ensures { result.now ≡ codes (legal_end is_legal) }
{
    match is_legal {
        true => b"\" data-legal=\"yes",
        false => b"",
    }
}

fn picture_end(has_picture: bool) -> &'static [u8]
    ensures { result.now ≡ codes (picture_end has_picture) }
{
    match has_picture {
        true => b"\" data-picture=\"yes\">",
        false => b"\">",
    }
}
