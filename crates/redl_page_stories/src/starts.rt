//! What comes after the opening of a paragraph, of a cell, of a picture, of a break, of a symbol and of a structure of an equation.

ghost use Rattle.std.specs.Prelude.{◌≡◌, Some, option_map};
ghost use Rattle.redl_io.specs.Sink.{Puts};
ghost use Rattle.redl_grammar.specs.References.{reference_at};
ghost use Rattle.redl_tree.specs.Model.View.{nodes_of};
ghost use Rattle.redl_html.specs.Pieces.{piece_text, pieces_text};
ghost use Rattle.redl_page_stories.specs.Starts.{break_pieces, cell_pieces, character_piece, description_pieces, direction_pieces, embed_pieces, empty_remark, is_agreed, merge_pieces, numbered, paragraph_pieces, picture_pieces, referenced, remark_pieces, said_pieces, sign_text, span_pieces, symbol_piece, symbol_pieces};

use crate::emphasis::is_off;
use crate::shown::put_shown;
use crate::values::{Property, put_style, value_of};
use redl_html::put_escaped;
use redl_io::{Failed, Sink, put_piece};
use redl_markup::read_reference;
use redl_tree::Node;

// A box, for a symbol of which only its font knows what it shows.
const BOX: &[u8] = b"&#9633;";

/// Puts the direction and the style of a paragraph with these kids, and the end of its start tag. It takes no memory.
pub(crate) fn put_paragraph_start<K: Sink>(kids: &[Node], out: &mut K) -> Result<(), Failed>
    ensures { Puts K.told K.faults K.settled K.lenders out.old out.new (pieces_text (paragraph_pieces (nodes_of kids.now))) result }
{
    let direction = value_of(Property::Direction, kids);
    put_direction(direction, out)?;
    let style = value_of(Property::Style, kids);
    put_style(style, out)
}

fn put_direction<K: Sink>(value: Option<&[u8]>, out: &mut K) -> Result<(), Failed>
    ensures { Puts K.told K.faults K.settled K.lenders out.old out.new (pieces_text (direction_pieces (option_map (λ value. value.now) value.entry))) result }
{
    match value {
        Some(value) => put_given_direction(value, out),
        None => Ok(()),
    }
}

fn put_given_direction<K: Sink>(value: &[u8], out: &mut K) -> Result<(), Failed>
    ensures { Puts K.told K.faults K.settled K.lenders out.old out.new (pieces_text (direction_pieces (Some value.now))) result }
{
    if is_off(value) {
        return Ok(());
    }
    put_piece(b" dir=\"rtl\"", out)
}

/// Puts over how many columns a cell with these kids goes, whether it is merged with the one above, and the end of its start tag. It
/// takes no memory.
pub(crate) fn put_cell_start<K: Sink>(kids: &[Node], out: &mut K) -> Result<(), Failed>
    ensures { Puts K.told K.faults K.settled K.lenders out.old out.new (pieces_text (cell_pieces (nodes_of kids.now))) result }
{
    let span = value_of(Property::Span, kids);
    put_span(span, out)?;
    let merge = value_of(Property::Merge, kids);
    put_merge(merge, out)?;
    put_piece(b">", out)
}

fn put_span<K: Sink>(value: Option<&[u8]>, out: &mut K) -> Result<(), Failed>
    ensures { Puts K.told K.faults K.settled K.lenders out.old out.new (pieces_text (span_pieces (option_map (λ value. value.now) value.entry))) result }
{
    match value {
        Some(value) => put_columns(value, out),
        None => Ok(()),
    }
}

fn put_columns<K: Sink>(value: &[u8], out: &mut K) -> Result<(), Failed>
    ensures { Puts K.told K.faults K.settled K.lenders out.old out.new (pieces_text (span_pieces (Some value.now))) result }
{
    put_piece(b" colspan=\"", out)?;
    put_shown(value, out)?;
    put_piece(b"\"", out)
}

fn put_merge<K: Sink>(value: Option<&[u8]>, out: &mut K) -> Result<(), Failed>
    ensures { Puts K.told K.faults K.settled K.lenders out.old out.new (pieces_text (merge_pieces (option_map (λ value. value.now) value.entry))) result }
{
    match value {
        Some(value) => put_given_merge(value, out),
        None => Ok(()),
    }
}

fn put_given_merge<K: Sink>(value: &[u8], out: &mut K) -> Result<(), Failed>
    ensures { Puts K.told K.faults K.settled K.lenders out.old out.new (pieces_text (merge_pieces (Some value.now))) result }
{
    if value == b"restart".as_slice() {
        return Ok(());
    }
    put_piece(b" class=\"merged\"", out)
}

/// Puts what leads to a picture, and what it is said to show, if they are given, and the end of its word. It takes no memory.
pub(crate) fn put_picture<K: Sink>(
    embed: Option<&[u8]>,
    description: Option<&[u8]>,
    out: &mut K,
) -> Result<(), Failed>
    ensures { Puts K.told K.faults K.settled K.lenders out.old out.new
        (pieces_text (picture_pieces (option_map (λ id. id.now) embed.entry) (option_map (λ text. text.now) description.entry))) result }
{
    put_embed(embed, out)?;
    put_picture_end(description, out)
}

fn put_embed<K: Sink>(id: Option<&[u8]>, out: &mut K) -> Result<(), Failed>
    ensures { Puts K.told K.faults K.settled K.lenders out.old out.new (pieces_text (embed_pieces (option_map (λ id. id.now) id.entry))) result }
{
    match id {
        Some(id) => put_given_embed(id, out),
        None => put_piece(b">picture", out),
    }
}

fn put_given_embed<K: Sink>(id: &[u8], out: &mut K) -> Result<(), Failed>
    ensures { Puts K.told K.faults K.settled K.lenders out.old out.new (pieces_text (embed_pieces (Some id.now))) result }
{
    put_piece(b" data-embed=\"", out)?;
    put_shown(id, out)?;
    put_piece(b"\">picture", out)
}

fn put_picture_end<K: Sink>(description: Option<&[u8]>, out: &mut K) -> Result<(), Failed>
    ensures { Puts K.told K.faults K.settled K.lenders out.old out.new (pieces_text (description_pieces (option_map (λ text. text.now) description.entry))) result }
{
    match description {
        Some(text) => put_given_description(text, out),
        None => put_piece(b"</span>", out),
    }
}

fn put_given_description<K: Sink>(text: &[u8], out: &mut K) -> Result<(), Failed>
    ensures { Puts K.told K.faults K.settled K.lenders out.old out.new (pieces_text (description_pieces (Some text.now))) result }
{
    if text.is_empty() {
        return put_piece(b"</span>", out);
    }
    put_said(text, out)
}

fn put_said<K: Sink>(text: &[u8], out: &mut K) -> Result<(), Failed>
    ensures { Puts K.told K.faults K.settled K.lenders out.old out.new (pieces_text (said_pieces text.now)) result }
{
    put_piece(b": ", out)?;
    put_shown(text, out)?;
    put_piece(b"</span>", out)
}

/// Puts the id of a comment, if it has one, and the end of the start tag of an element for it. It takes no memory.
pub(crate) fn put_remark<K: Sink>(id: Option<&[u8]>, out: &mut K) -> Result<(), Failed>
    ensures { Puts K.told K.faults K.settled K.lenders out.old out.new (pieces_text (remark_pieces (option_map (λ id. id.now) id.entry))) result }
{
    match id {
        Some(id) => put_given_remark(id, out),
        None => put_piece(b">", out),
    }
}

fn put_given_remark<K: Sink>(id: &[u8], out: &mut K) -> Result<(), Failed>
    ensures { Puts K.told K.faults K.settled K.lenders out.old out.new (pieces_text (remark_pieces (Some id.now))) result }
{
    put_piece(b" data-remark=\"", out)?;
    put_shown(id, out)?;
    put_piece(b"\">", out)
}

/// The same, and the end of the element. It takes no memory.
pub(crate) fn put_empty_remark<K: Sink>(id: Option<&[u8]>, out: &mut K) -> Result<(), Failed>
    ensures { Puts K.told K.faults K.settled K.lenders out.old out.new (pieces_text (empty_remark (option_map (λ id. id.now) id.entry))) result }
{
    put_remark(id, out)?;
    put_piece(b"</span>", out)
}

/// Puts what ends at a break of this sort besides a line. It takes no memory.
pub(crate) fn put_break<K: Sink>(sort: Option<&[u8]>, out: &mut K) -> Result<(), Failed>
    ensures { Puts K.told K.faults K.settled K.lenders out.old out.new (pieces_text (break_pieces (option_map (λ sort. sort.now) sort.entry))) result }
{
    match sort {
        Some(sort) => put_given_break(sort, out),
        None => Ok(()),
    }
}

fn put_given_break<K: Sink>(sort: &[u8], out: &mut K) -> Result<(), Failed>
    ensures { Puts K.told K.faults K.settled K.lenders out.old out.new (pieces_text (break_pieces (Some sort.now))) result }
{
    if sort == b"page".as_slice() {
        return put_piece(b"<span class=\"page-end\"></span>", out);
    }
    if sort == b"column".as_slice() {
        return put_piece(b"<span class=\"column-end\"></span>", out);
    }
    Ok(())
}

/// Puts a sign of an equation that is given, or else the usual one. It takes no memory.
pub(crate) fn put_sign<K: Sink>(
    sign: Option<&[u8]>,
    usual: &[u8],
    out: &mut K,
) -> Result<(), Failed>
    ensures { Puts K.told K.faults K.settled K.lenders out.old out.new (sign_text usual.now (option_map (λ sign. sign.now) sign.entry)) result }
{
    match sign {
        Some(sign) => put_shown(sign, out),
        None => put_piece(usual, out),
    }
}

/// Puts the symbol with this number, if it has one, and its end. It takes no memory.
pub(crate) fn put_symbol<K: Sink>(digits: Option<&[u8]>, out: &mut K) -> Result<(), Failed>
    ensures { Puts K.told K.faults K.settled K.lenders out.old out.new (pieces_text (symbol_pieces (option_map (λ digits. digits.now) digits.entry))) result }
{
    put_given_symbol(digits, out)?;
    put_piece(b"</span>", out)
}

fn put_given_symbol<K: Sink>(digits: Option<&[u8]>, out: &mut K) -> Result<(), Failed>
    ensures { Puts K.told K.faults K.settled K.lenders out.old out.new (piece_text (symbol_piece (option_map (λ digits. digits.now) digits.entry))) result }
{
    match digits {
        Some(digits) => put_numbered(digits, out),
        None => put_piece(BOX, out),
    }
}

#[tactic(auto, unfolding(crate::specs::Starts::numbered))]
fn put_numbered<K: Sink>(digits: &[u8], out: &mut K) -> Result<(), Failed>
    ensures { Puts K.told K.faults K.settled K.lenders out.old out.new (piece_text (numbered digits.now)) result }
{
    let [a, b, c, d] = digits else {
        return put_piece(BOX, out);
    };
    put_referenced(&[b'#', b'x', *a, *b, *c, *d, b';'], out)
}

// Puts the character of this reference, or a box.
fn put_referenced<K: Sink>(reference: &[u8], out: &mut K) -> Result<(), Failed>
    ensures { Puts K.told K.faults K.settled K.lenders out.old out.new (piece_text (referenced (reference_at reference.now))) result }
{
    match read_reference(reference) {
        Some((character, _)) => put_character(character, out),
        None => put_piece(BOX, out),
    }
}

fn put_character<K: Sink>(character: char, out: &mut K) -> Result<(), Failed>
    ensures { Puts K.told K.faults K.settled K.lenders out.old out.new (piece_text (character_piece character)) result }
{
    if is_agreed(character) {
        return put_escaped(character.encode_utf8(&mut [0; 4]).as_bytes(), out);
    }
    put_piece(BOX, out)
}

// Whether fonts agree on a character.
fn is_agreed(character: char) -> bool
    ensures { result ≡ is_agreed character }
{
    let number = u32::from(character);
    (0x20 <= number && number < 0x7F) || (0xA0 <= number && number < 0xE000) || 0xF900 <= number
}
