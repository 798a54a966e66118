//! The pieces of a text.

ghost use Rattle.std.specs.Prelude.{◌≡◌, ◌++◌, map};
ghost use Rattle.redl_grammar.specs.Names.{name_text};
ghost use Rattle.redl_markup.specs.Attributes.{names_in};
ghost use Rattle.redl_markup.specs.Views.{name_view};

use crate::name::Name;
use std::marker::Model;

/// A start tag or an empty element's tag without its `<` and its `>` or `/>`: a name, and the tail, which is all behind it.
#[derive(Drop)]
pub struct StartTag<'a> {
    name: Name<'a>,
    tail: &'a [u8],
    text: &'a [u8],
    attributes: Vec<Name<'a>>,
}

impl<'a> Model for StartTag<'a> {
    ghost use Rattle.std.specs.Prelude.{◌≡◌, ◌++◌, map};
    ghost use Rattle.redl_grammar.specs.Names.{name_text};
    ghost use Rattle.redl_grammar.specs.Tails.{NameAndTail};
    ghost use Rattle.redl_markup.specs.Attributes.{names_in};
    ghost use Rattle.redl_markup.specs.Views.{name_view};

    ghost Value = { NameAndTail };

    ghost view = { λ tag. record { name = name_view tag.name; tail = tag.tail.now } };

    ghost invariant = { λ tag. (tag.text.now ≡ name_text (name_view tag.name) ++ tag.tail.now) × (map name_view tag.attributes.items ≡ names_in tag.tail.now) };
}

impl<'a> StartTag<'a> {
    /// A tag of these parts, of which `text` is the name and the tail.
    pub(crate) fn new(
        name: Name<'a>,
        tail: &'a [u8],
        text: &'a [u8],
        attributes: Vec<Name<'a>>,
    ) -> StartTag<'a>
        requires text { text.now ≡ name_text (name_view name) ++ tail.now }
        requires attributes { map name_view attributes.items ≡ names_in tail.now }
        ensures { result ≡ record { name = name_view name.entry; tail = tail.entry.now } }
    {
        StartTag {
            name,
            tail,
            text,
            attributes,
        }
    }

    /// The name.
    pub fn name(&self) -> Name<'a>
        ensures { name_view result ≡ self.now.name }
    {
        self.name
    }

    /// The tail: all between the name and the `>` or `/>`.
    pub fn tail(&self) -> &'a [u8]
        ensures { result.now ≡ self.now.tail }
    {
        self.tail
    }

    /// The name and the tail, one behind the other as in the text.
    pub fn text(&self) -> &'a [u8]
        ensures { result.now ≡ name_text self.now.name ++ self.now.tail }
    {
        self.text
    }

    /// The names of the attributes, in the order of the tail.
    pub fn attributes(&self) -> &[Name<'a>]
        ensures { map name_view result.now ≡ names_in self.now.tail }
    {
        &self.attributes
    }

    /// The list of those names, for the next tag.
    pub fn into_attributes(self) -> Vec<Name<'a>>
        ensures { map name_view result.items ≡ names_in self.entry.tail }
    {
        self.attributes
    }
}

/// A tag, or a stretch without one.
#[derive(Drop)]
pub enum Piece<'a> {
    /// A start tag.
    Start(StartTag<'a>),
    /// An empty element's tag.
    Empty(StartTag<'a>),
    /// An end tag: its name and the white space after the name.
    End(Name<'a>, &'a [u8]),
    /// The longest stretch without a tag.
    Stretch(&'a [u8]),
}
