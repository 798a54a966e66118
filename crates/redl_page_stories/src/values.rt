//! What a page shows of the values of attributes of properties.

ghost use Rattle.std.specs.Prelude.{◌≡◌, ◌&&◌, [], Some, bytes_eq, codes, unwrap_or};
ghost use Rattle.std.specs.Option.{option_map};
ghost use Rattle.redl_io.specs.Sink.{Puts};
ghost use Rattle.redl_reading.specs.Steps.{Gives};
ghost use Rattle.redl_markup.specs.Views.{attribute_view};
ghost use Rattle.redl_stamp.specs.Attribute.{has_local_name, written_value};
ghost use Rattle.redl_laid.specs.Firsts.{first_item};
ghost use Rattle.redl_tree.specs.Model.IdleTexts.{idle_nodes};
ghost use Rattle.redl_tree.specs.Model.View.{nodes_of, item_of, tag_of};
ghost use Rattle.redl_html.specs.Pieces.{pieces_text};
ghost use Rattle.redl_page_stories.specs.Starts.{style_pieces};
ghost use Rattle.redl_page_stories.specs.Values.{given, holds, is_in, property_name, value_in, value_of};
ghost use Rattle.redl_page_stories.specs.Inside.Items.{item_value, item_value_in};

use crate::place::is_in_math;
use crate::shown::put_shown;
use redl_io::{Failed, Sink, put_piece};
use redl_laid::{First, Laid};
use redl_markup::{Attribute, next_attribute};
use redl_tree::{Elem, Node, Plain, Space, Word, is_word};

/// The value of the first attribute of a tag's tail with this local name, as it is written. It takes no memory.
pub(crate) fn written_value<'a>(tail: &'a [u8], local: &[u8]) -> Option<&'a [u8]>
    ensures { Gives (λ value. value.now) result (written_value tail.now local.now) }
{
    let mut left = tail;
    while let Some((attribute, rest)) = next_attribute(left) {
        if has_local_name(&attribute, local) {
            return Some(attribute.value);
        }
        left = rest;
    }
    None
}

// Whether an attribute has this local name and is no declaration of a namespace.
fn has_local_name(attribute: &Attribute<'_>, local: &[u8]) -> bool
    ensures { result ≡ has_local_name local.now (attribute_view attribute.now) }
{
    attribute.name.local == local && attribute.name.prefix != b"xmlns".as_slice()
}

/// A property whose value a page shows.
#[derive(Clone, Copy, Debug, PartialEq, Eq)]
pub(crate) enum Property {
    /// A paragraph's style.
    Style,
    /// A paragraph's direction.
    Direction,
    /// The number of columns that a cell spans.
    Span,
    /// Whether a cell is merged with those above or below.
    Merge,
    /// The sign of a sum, an integral or the like.
    OperatorSign,
    /// The sign over a part of an equation.
    AccentSign,
    /// The sign before parts of an equation.
    FirstDelimiter,
    /// The sign after them.
    LastDelimiter,
    /// What a drawing is said to show.
    Description,
}

impl Property {
    fn name(self) -> &'static [u8]
        ensures { result.now ≡ property_name self }
    {
        match self {
            Property::Style => b"pStyle",
            Property::Direction => b"bidi",
            Property::Span => b"gridSpan",
            Property::Merge => b"vMerge",
            Property::OperatorSign => b"chr",
            Property::AccentSign => b"chr",
            Property::FirstDelimiter => b"begChr",
            Property::LastDelimiter => b"endChr",
            Property::Description => b"docPr",
        }
    }

    // What a property with this tail gives.
    fn given<'a>(self, tail: &'a [u8]) -> Option<&'a [u8]>
        ensures { Gives (λ value. value.now) result (given self tail.now) }
    {
        match self {
            Property::Direction => Some(value_or_none(tail)),
            Property::Merge => Some(value_or_none(tail)),
            Property::Style => written_value(tail, b"val"),
            Property::Span => written_value(tail, b"val"),
            Property::OperatorSign => written_value(tail, b"val"),
            Property::AccentSign => written_value(tail, b"val"),
            Property::FirstDelimiter => written_value(tail, b"val"),
            Property::LastDelimiter => written_value(tail, b"val"),
            Property::Description => written_value(tail, b"descr"),
        }
    }

    // Whether an element holds properties of this sort.
    fn is_held_by(self, elem: &Elem) -> bool
        ensures { result ≡ holds self (tag_of elem.now) }
    {
        match self {
            Property::Style | Property::Direction => is_word(elem, Word::PPr),
            Property::Span | Property::Merge => is_word(elem, Word::TcPr),
            Property::OperatorSign => is_in_math(elem, b"naryPr"),
            Property::AccentSign => is_in_math(elem, b"accPr"),
            Property::FirstDelimiter | Property::LastDelimiter => is_in_math(elem, b"dPr"),
            Property::Description => elem.space() == Space::Other,
        }
    }

    // Whether an element with this namespace and this local name gives it.
    fn has_name(self, space: Space, local: &[u8]) -> bool
        ensures { result ≡ (is_in self space && bytes_eq local.now (property_name self)) }
    {
        self.is_in(space) && local == self.name()
    }

    // Whether it is one of this namespace.
    fn is_in(self, space: Space) -> bool
        ensures { result ≡ is_in self space }
    {
        match self {
            Property::Style | Property::Direction | Property::Span | Property::Merge => {
                space == Space::W
            }
            Property::OperatorSign
            | Property::AccentSign
            | Property::FirstDelimiter
            | Property::LastDelimiter => space == Space::M,
            Property::Description => space == Space::Other,
        }
    }
}

// The value in a tag's tail, or the empty one.
fn value_or_none<'a>(tail: &'a [u8]) -> &'a [u8]
    ensures { result.now ≡ unwrap_or (written_value tail.now (codes "val")) [] }
{
    match written_value(tail, b"val") {
        Some(value) => value,
        None => b"",
    }
}

/// The value of a property of an element with these kids, as it is written, if it is given.
pub(crate) fn value_of<'a>(property: Property, kids: &'a [Node]) -> Option<&'a [u8]>
    ensures { Gives (λ value. value.now) result (value_of property (nodes_of kids.now)) }
{
    for node in kids {
        if let Some(value) = node_value(property, node) {
            return Some(value);
        }
    }
    None
}

fn node_value<'a>(property: Property, node: &'a Node) -> Option<&'a [u8]>
    ensures { Gives (λ value. value.now) result (item_value property (item_of node.now)) }
{
    match node {
        Node::Elem(elem) if property.is_held_by(elem) => value_in(property, elem.kids()),
        _ => None,
    }
}

fn value_in<'a>(property: Property, nodes: &'a [Node]) -> Option<&'a [u8]>
    ensures { Gives (λ value. value.now) result (value_in property (nodes_of nodes.now)) }
{
    for node in nodes {
        if let Some(value) = node_value_in(property, node) {
            return Some(value);
        }
    }
    None
}

fn node_value_in<'a>(property: Property, node: &'a Node) -> Option<&'a [u8]>
    ensures { Gives (λ value. value.now) result (item_value_in property (item_of node.now)) }
{
    match node {
        Node::Elem(elem) if property.has_name(elem.space(), elem.local()) => {
            property.given(elem.tail())
        }
        Node::Plain(plain) => idle_value_in(property, plain),
        _ => None,
    }
}

// The value among properties that a list keeps as text.
fn idle_value_in<'a>(property: Property, plain: &Plain<'a>) -> Option<&'a [u8]>
    ensures { Gives (λ value. value.now) result (value_in property (idle_nodes plain.now)) }
{
    let mut left = Laid::of(plain);
    while let Some((first, rest)) = left.first() {
        if let Some(value) = first_value_in(property, &first) {
            return Some(value);
        }
        left = rest;
    }
    None
}

fn first_value_in<'a>(property: Property, first: &First<'a>) -> Option<&'a [u8]>
    ensures { Gives (λ value. value.now) result (item_value_in property (first_item first.now)) }
{
    match first {
        First::Elem(elem) if property.has_name(elem.tag.space(), elem.tag.local()) => {
            property.given(elem.tag.tail())
        }
        _ => None,
    }
}

/// Puts the style of a paragraph, if it has one, and the end of its start tag. It takes no memory.
pub(crate) fn put_style<K: Sink>(style: Option<&[u8]>, out: &mut K) -> Result<(), Failed>
    ensures { Puts K.told K.faults K.settled K.lenders out.old out.new (pieces_text (style_pieces (option_map (λ style. style.now) style.entry))) result }
{
    match style {
        Some(style) => put_named_style(style, out),
        None => put_piece(b">", out),
    }
}

fn put_named_style<K: Sink>(style: &[u8], out: &mut K) -> Result<(), Failed>
    ensures { Puts K.told K.faults K.settled K.lenders out.old out.new (pieces_text (style_pieces (Some style.now))) result }
{
    put_piece(b" data-style=\"", out)?;
    put_shown(style, out)?;
    put_piece(b"\">", out)
}
