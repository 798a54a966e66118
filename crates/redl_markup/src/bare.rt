//! Pieces that are known to be there, read without memory.

ghost use Rattle.std.specs.Prelude.{◌≡◌, ◌++◌, true};
ghost use Rattle.redl_reading.specs.Lists.{before};
ghost use Rattle.redl_reading.specs.Steps.{Gives};
ghost use Rattle.redl_grammar.specs.declared.section.Section.TheVariants.{InElement};
ghost use Rattle.redl_grammar.specs.Names.{name_text};
ghost use Rattle.redl_grammar.specs.References.{is_there};
ghost use Rattle.redl_grammar.specs.ScanTags.{attributes_end, tail_at, tag_at};
ghost use Rattle.redl_grammar.specs.ScanPieces.{piece_at};
ghost use Rattle.redl_markup.specs.PieceViews.{bare_view};
ghost use Rattle.redl_markup.specs.Views.{name_view};

use crate::attribute::attribute_behind;
use crate::item::begins_item;
use crate::name::{Name, whole_name};
use crate::space::spaces;
use crate::stretch::stretch;
use crate::tag::{end_tag, is_at_end};
use redl_grammar::Section;
use redl_reading::{before, skip};
use std::marker::Model;

/// A start tag or an empty element's tag without its `<` and its `>` or `/>`, as `StartTag`, but the names of its attributes are not
/// listed.
#[derive(Drop)]
pub struct BareTag<'a> {
    name: Name<'a>,
    tail: &'a [u8],
    text: &'a [u8],
}

impl<'a> Model for BareTag<'a> {
    ghost use Rattle.std.specs.Prelude.{◌≡◌, ◌++◌};
    ghost use Rattle.redl_grammar.specs.Names.{name_text};
    ghost use Rattle.redl_grammar.specs.Tails.{NameAndTail};
    ghost use Rattle.redl_markup.specs.Views.{name_view};

    ghost Value = { NameAndTail };

    ghost view = { λ tag. record { name = name_view tag.name; tail = tag.tail.now } };

    ghost invariant = { λ tag. tag.text.now ≡ name_text (name_view tag.name) ++ tag.tail.now };
}

impl<'a> BareTag<'a> {
    fn new(name: Name<'a>, tail: &'a [u8], text: &'a [u8]) -> BareTag<'a>
        requires { text.now ≡ name_text (name_view name) ++ tail.now }
        ensures { result ≡ record { name = name_view name.entry; tail = tail.entry.now } }
    {
        BareTag { name, tail, text }
    }

    /// The name.
    pub fn name(&self) -> Name<'a>
        ensures { name_view result ≡ self.now.name }
    {
        self.name
    }

    /// The tail: all between the name and the `>` or `/>`.
    pub fn tail(&self) -> &'a [u8]
        ensures { result.now ≡ self.now.tail }
    {
        self.tail
    }

    /// The name and the tail, one behind the other as in the text.
    pub fn text(&self) -> &'a [u8]
        ensures { result.now ≡ name_text self.now.name ++ self.now.tail }
    {
        self.text
    }
}

/// A tag, or a stretch without one, as `Piece`.
#[derive(Drop)]
pub enum BarePiece<'a> {
    /// A start tag.
    Start(BareTag<'a>),
    /// An empty element's tag.
    Empty(BareTag<'a>),
    /// An end tag: its name and the white space after the name.
    End(Name<'a>, &'a [u8]),
    /// The longest stretch without a tag.
    Stretch(&'a [u8]),
}

// The bytes after the attributes of a tag and their white space.
fn attributes_end(bytes: &[u8]) -> Option<&[u8]>
    ensures { Gives (λ rest. rest.now) result (attributes_end bytes.now) }
{
    let mut rest = bytes;
    loop {
        let (gap, next) = spaces(rest);
        if is_at_end(next) {
            return Some(next);
        }
        let Some((attribute, next)) = attribute_behind(gap, next) else {
            return None;
        };
        rest = next;
    }
}

// The bytes after a tail that is known to be there.
fn known_tail(bytes: &[u8]) -> Option<&[u8]>
    requires { is_there (tail_at bytes.now) ≡ true }
    ensures { Gives (λ end. (before bytes.now end.now, end.now)) result (tail_at bytes.now) }
{
    attributes_end(bytes)
}

// A start tag or an empty element's tag that is known to be there, given the bytes after its `<`.
#[tactic(auto, unfolding(redl_grammar::specs::ScanTags::tag_at))]
fn known_tag(bytes: &[u8]) -> Option<(BarePiece<'_>, &[u8])>
    requires { is_there (tag_at bytes.now) ≡ true }
    ensures { Gives (λ x. (bare_view x.0, x.1.now)) result (tag_at bytes.now) }
{
    let (name, rest) = whole_name(bytes)?;
    let end = known_tail(rest)?;
    let tag = BareTag::new(name, before(rest, end), before(bytes, end));
    if let Some(rest) = skip(end, b">") {
        return Some((BarePiece::Start(tag), rest));
    }
    let rest = skip(end, b"/>")?;
    Some((BarePiece::Empty(tag), rest))
}

/// The piece of an element's content with which the bytes begin, and the bytes after it, as `next_piece` reads them, where they are
/// known to begin with one. So no two attributes of a tag need to be compared, and it takes no memory.
#[tactic(auto, unfolding(redl_grammar::specs::ScanPieces::piece_at))]
pub fn known_piece(bytes: &[u8]) -> Option<(BarePiece<'_>, &[u8])>
    requires { is_there (piece_at InElement bytes.now) ≡ true }
    ensures { Gives (λ x. (bare_view x.0, x.1.now)) result (piece_at InElement bytes.now) }
{
    if let Some(rest) = skip(bytes, b"</") {
        let (name, space, rest) = end_tag(rest)?;
        return Some((BarePiece::End(name, space), rest));
    }
    match skip(bytes, b"<") {
        Some(rest) if !begins_item(bytes) => known_tag(rest),
        _ => {
            let (stretch, rest) = stretch(bytes, Section::InElement)?;
            Some((BarePiece::Stretch(stretch), rest))
        }
    }
}
