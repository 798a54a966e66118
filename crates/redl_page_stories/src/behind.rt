//! What comes behind the opening of an element, and before its closing.

ghost use Rattle.std.specs.Prelude.{◌≡◌};
ghost use Rattle.redl_io.specs.Sink.{Puts};
ghost use Rattle.redl_tree.specs.Model.View.{tag_of, kids_of};
ghost use Rattle.redl_html.specs.Pieces.{piece_text, pieces_text};
ghost use Rattle.redl_page_stories.specs.Shapes.{before_closing, behind_alone, behind_opening};
ghost use Rattle.redl_page_stories.specs.Starts.{picture_pieces, sign_piece};
ghost use Rattle.redl_page_stories.specs.Values.{embed_in, value_of};
ghost use Rattle.redl_page_stories.specs.declared.values.Property.TheVariants.{AccentSign, Description, OperatorSign};
ghost use Rattle.redl_places.specs.Views.{signs_of};

use crate::embed::embed_in;
use crate::notes::{put_endnote, put_footnote};
use crate::shape::Shape;
use crate::starts::{
    put_break, put_cell_start, put_empty_remark, put_paragraph_start, put_picture, put_remark,
    put_sign, put_symbol,
};
use crate::values::{Property, value_of, written_value};
use redl_io::{Failed, Sink};
use redl_places::NoteSigns;
use redl_tree::Elem;

/// Puts what comes behind the opening of an element with this shape. It takes no memory, here and below.
pub(crate) fn put_behind_opening<K: Sink>(
    signs: &NoteSigns,
    shape: Shape,
    elem: &Elem,
    out: &mut K,
) -> Result<(), Failed>
    ensures { Puts K.told K.faults K.settled K.lenders out.old out.new (pieces_text (behind_opening (signs_of signs.now) shape (tag_of elem.now) (kids_of elem.now))) result }
{
    match shape {
        Shape::Paragraph => put_paragraph_start(elem.kids(), out),
        Shape::Division => put_paragraph_start(elem.kids(), out),
        Shape::Cell => put_cell_start(elem.kids(), out),
        Shape::Picture => put_picture_of(elem, out),
        Shape::Operator => put_operator(elem, out),
        Shape::Accent => put_accent(elem, out),
        Shape::Delimiters => put_delimiter(Property::FirstDelimiter, elem, out),
        _ => put_behind_alone(signs, shape, elem.tail(), out),
    }
}

/// Puts what comes behind the opening of an element with this shape and tail whose kids tell nothing.
pub(crate) fn put_behind_alone<K: Sink>(
    signs: &NoteSigns,
    shape: Shape,
    tail: &[u8],
    out: &mut K,
) -> Result<(), Failed>
    ensures { Puts K.told K.faults K.settled K.lenders out.old out.new (pieces_text (behind_alone (signs_of signs.now) shape tail.now)) result }
{
    match shape {
        Shape::Picture => put_picture(None, None, out),
        Shape::Break => put_break(written_value(tail, b"type"), out),
        Shape::Symbol => put_symbol(written_value(tail, b"char"), out),
        Shape::FootnoteReference => put_footnote(signs, tail, out),
        Shape::EndnoteReference => put_endnote(signs, tail, out),
        Shape::Footnote => put_footnote(signs, tail, out),
        Shape::Endnote => put_endnote(signs, tail, out),
        Shape::RemarkStart => put_remark(written_value(tail, b"id"), out),
        Shape::RemarkEnd => put_remark(written_value(tail, b"id"), out),
        Shape::RemarkReference => put_remark(written_value(tail, b"id"), out),
        Shape::Remark => put_empty_remark(written_value(tail, b"id"), out),
        _ => Ok(()),
    }
}

// Puts what leads to a picture, and what it is said to show.
fn put_picture_of<K: Sink>(elem: &Elem, out: &mut K) -> Result<(), Failed>
    ensures { Puts K.told K.faults K.settled K.lenders out.old out.new (pieces_text (picture_pieces (embed_in (kids_of elem.now)) (value_of Description (kids_of elem.now)))) result }
{
    put_picture(
        embed_in(elem.kids()),
        value_of(Property::Description, elem.kids()),
        out,
    )
}

fn put_operator<K: Sink>(elem: &Elem, out: &mut K) -> Result<(), Failed>
    ensures { Puts K.told K.faults K.settled K.lenders out.old out.new (piece_text (sign_piece "&#8747;" (value_of OperatorSign (kids_of elem.now)))) result }
{
    put_sign(
        value_of(Property::OperatorSign, elem.kids()),
        b"&#8747;",
        out,
    )
}

fn put_accent<K: Sink>(elem: &Elem, out: &mut K) -> Result<(), Failed>
    ensures { Puts K.told K.faults K.settled K.lenders out.old out.new (piece_text (sign_piece "&#770;" (value_of AccentSign (kids_of elem.now)))) result }
{
    put_sign(value_of(Property::AccentSign, elem.kids()), b"&#770;", out)
}

fn put_delimiter<K: Sink>(delimiter: Property, elem: &Elem, out: &mut K) -> Result<(), Failed>
    ensures { Puts K.told K.faults K.settled K.lenders out.old out.new (piece_text (sign_piece "" (value_of delimiter (kids_of elem.now)))) result }
{
    put_sign(value_of(delimiter, elem.kids()), b"", out)
}

/// Puts the last delimiter of parts of an equation.
pub(crate) fn put_before_closing<K: Sink>(
    shape: Shape,
    elem: &Elem,
    out: &mut K,
) -> Result<(), Failed>
    ensures { Puts K.told K.faults K.settled K.lenders out.old out.new (pieces_text (before_closing shape (kids_of elem.now))) result }
{
    match shape {
        Shape::Delimiters => put_delimiter(Property::LastDelimiter, elem, out),
        _ => Ok(()),
    }
}
