//! The lists of paragraphs that have a number.

ghost use Rattle.std.specs.Prelude.{◌≡◌, ◌++◌, codes, decimal};
ghost use Rattle.std.specs.List.{flat_map};
ghost use Rattle.redl_io.specs.Sink.{Puts};
ghost use Rattle.redl_html.specs.Pieces.{pieces_text};
ghost use Rattle.redl_page_numbers.specs.Pieces.{is_sort, row_end, row_head, row_pieces, sort_list, story_list, story_start};

use crate::row::Row;
use crate::stories::StoryRows;
use itoa::Buffer;
use redl_html::put_escaped;
use redl_io::{Failed, Sink, Text, put_piece, put_pieces};

/// Puts the lists of those of the stories that are documents, or of those that are not.
pub(crate) fn put_sort<K: Sink>(
    documents: bool,
    stories: &[StoryRows],
    out: &mut K,
) -> Result<(), Failed>
    ensures { Puts K.told K.faults K.settled K.lenders out.old out.new (pieces_text (flat_map (sort_list documents) stories.now)) result }
{
    for story in stories {
        put_story(documents, story, out)?;
    }
    Ok(())
}

fn put_story<K: Sink>(documents: bool, story: &StoryRows, out: &mut K) -> Result<(), Failed>
    ensures { Puts K.told K.faults K.settled K.lenders out.old out.new (pieces_text (sort_list documents story.now)) result }
{
    if is_sort(documents, story.is_document) {
        return put_list(&story.name, &story.rows, out);
    }
    Ok(())
}

fn is_sort(documents: bool, is_document: bool) -> bool
    ensures { result ≡ is_sort documents is_document }
{
    if documents {
        return is_document;
    }
    !is_document
}

// Puts the list of a story whose part has this name, if it has any paragraph.
fn put_list<K: Sink>(name: &Text, rows: &[Row], out: &mut K) -> Result<(), Failed>
    ensures { Puts K.told K.faults K.settled K.lenders out.old out.new (pieces_text (story_list name.now rows.now)) result }
{
    if rows.is_empty() {
        return Ok(());
    }
    put_start(name.as_bytes(), out)?;
    put_rows(rows, out)?;
    put_piece(b"</ol>\n", out)
}

fn put_start<K: Sink>(name: &[u8], out: &mut K) -> Result<(), Failed>
    ensures { Puts K.told K.faults K.settled K.lenders out.old out.new (pieces_text (story_start name.now)) result }
{
    put_piece(b"<ol class=\"numbers\" data-part=\"", out)?;
    put_escaped(name, out)?;
    put_piece(b"\" hidden>\n", out)
}

fn put_rows<K: Sink>(rows: &[Row], out: &mut K) -> Result<(), Failed>
    ensures { Puts K.told K.faults K.settled K.lenders out.old out.new (pieces_text (flat_map row_pieces rows.now)) result }
{
    for row in rows {
        put_row(row, out)?;
    }
    Ok(())
}

fn put_row<K: Sink>(row: &Row, out: &mut K) -> Result<(), Failed>
    ensures { Puts K.told K.faults K.settled K.lenders out.old out.new (pieces_text (row_pieces row.now)) result }
{
    put_head(row, out)?;
    put_escaped(row.text.as_bytes(), out)?;
    put_piece(b"</li>\n", out)
}

fn put_head<K: Sink>(row: &Row, out: &mut K) -> Result<(), Failed>
    ensures { Puts K.told K.faults K.settled K.lenders out.old out.new (pieces_text (row_head row.now)) result }
{
    put_number(b"<li data-paragraph=\"", row.paragraph, out)?;
    put_number(b"\" data-num=\"", row.num, out)?;
    put_number(b"\" data-level=\"", row.level, out)?;
    put_piece(row_end(row.ends_section), out)
}

fn row_end(ends_section: bool) -> &'static [u8]
    ensures { result.now ≡ codes (row_end ends_section) }
{
    match ends_section {
        true => b"\" data-section=\"yes\">",
        false => b"\">",
    }
}

/// Puts what comes before a number, and the number.
pub(crate) fn put_number<K: Sink>(before: &[u8], number: usize, out: &mut K) -> Result<(), Failed>
    ensures { Puts K.told K.faults K.settled K.lenders out.old out.new (before.now ++ decimal number) result }
{
    let mut buffer = Buffer::new();
    let digits = buffer.format(number).as_bytes();
    put_pieces(&[before, digits], out)
}
