//! A style.

ghost use Rattle.std.specs.Prelude.{◌≡◌};
ghost use Rattle.std.specs.Option.{option_map};
ghost use Rattle.redl_lists.specs.Parts.{part_element};
ghost use Rattle.redl_hidden.specs.Styles.{is_default, style_of};

use crate::value::{is_text, on_or, value_at, value_if_any, vanish_in};
use redl_lists::Part;
use std::marker::Model;

/// What a style says of hidden text.
#[derive(Drop)]
pub(crate) struct Style<'a> {
    id: Option<&'a [u8]>,
    base: Option<&'a [u8]>,
    vanish: Option<bool>,
    is_of_paragraphs: bool,
    is_of_runs: bool,
}

impl<'a> Model for Style<'a> {
    ghost use Rattle.std.specs.Option.{option_map};
    ghost use Rattle.redl_hidden.specs.Styles.{Style as StyleSaid};

    ghost Value = { StyleSaid };

    ghost view = { λ style. record { id = option_map (λ id. id.now) style.id; base = option_map (λ id. id.now) style.base; vanish = style.vanish; is_of_paragraphs = style.is_of_paragraphs; is_of_runs = style.is_of_runs } };
}

impl<'a> Style<'a> {
    /// What this one says.
    pub(crate) fn of(part: &Part<'_, 'a>) -> Style<'a>
        ensures { result ≡ style_of (part_element part.now) }
    {
        let own = part.first_named(b"rPr");
        let base = value_if_any(part.first_named(b"basedOn"));
        Style {
            id: value_at(part, b"styleId"),
            base,
            vanish: vanish_in(&own),
            is_of_paragraphs: is_default(part, b"paragraph"),
            is_of_runs: is_default(part, b"character"),
        }
    }

    /// Its id.
    pub(crate) fn id(&self) -> Option<&'a [u8]>
        ensures { option_map (λ id. id.now) result ≡ self.now.id }
    {
        self.id
    }

    /// The id of the style that it is based on.
    pub(crate) fn base(&self) -> Option<&'a [u8]>
        ensures { option_map (λ id. id.now) result ≡ self.now.base }
    {
        self.base
    }

    /// Whether it hides, where it says so itself.
    pub(crate) fn vanish(&self) -> Option<bool>
        ensures { result ≡ self.now.vanish }
    {
        self.vanish
    }

    /// Whether it is that of paragraphs that name none.
    pub(crate) fn is_of_paragraphs(&self) -> bool
        ensures { result ≡ self.now.is_of_paragraphs }
    {
        self.is_of_paragraphs
    }

    /// Whether it is that of runs that name none.
    pub(crate) fn is_of_runs(&self) -> bool
        ensures { result ≡ self.now.is_of_runs }
    {
        self.is_of_runs
    }
}

// Whether a style is the default one of this type.
fn is_default(part: &Part<'_, '_>, kind: &[u8]) -> bool
    ensures { result ≡ is_default kind.now (part_element part.now) }
{
    is_text(kind, value_at(part, b"type")) && on_or(false, value_at(part, b"default"))
}
