//! Values of properties, as they are written.

ghost use Rattle.std.specs.Prelude.{◌≡◌, codes, option_and_then};
ghost use Rattle.redl_lists.specs.Parts.{kids_of_part, part_element};
ghost use Rattle.redl_lists.specs.Tables.{is_text};
ghost use Rattle.redl_lists.specs.Values.{is_off};
ghost use Rattle.redl_reading.specs.Steps.{Gives};
ghost use Rattle.redl_stamp.specs.Attribute.{written_value};
ghost use Rattle.redl_hidden.specs.Styles.{is_on, kid_value, kids_of_first, on_or, value_at, vanish_in};
ghost use Rattle.std.specs.Option.{option_map};

use redl_lists::Part;
use redl_relations::value_in;
use redl_stamp::has_attribute;

/// The value of the first attribute of a tag's tail with this local name.
pub(crate) fn written_value<'a>(tail: &'a [u8], local: &[u8]) -> Option<&'a [u8]>
    ensures { Gives (λ value. value.now) result (written_value tail.now local.now) }
{
    if has_attribute(tail, local) {
        return Some(value_in(tail, local));
    }
    None
}

/// The value of an attribute of an element.
pub(crate) fn value_at<'a>(part: &Part<'_, 'a>, local: &[u8]) -> Option<&'a [u8]>
    ensures { Gives (λ value. value.now) result (value_at local.now (part_element part.now)) }
{
    written_value(part.tail(), local)
}

/// The first kid of an element with this name, if there is such an element.
pub(crate) fn first_kid<'n, 'a>(part: &Option<Part<'n, 'a>>, name: &[u8]) -> Option<Part<'n, 'a>>
    ensures { kids_of_part result ≡ kids_of_first name.now (kids_of_part part.now) }
{
    match part {
        Some(part) => part.first_named(name),
        None => None,
    }
}

/// The value of the first kid of an element with this name, if there is such an element.
pub(crate) fn kid_value<'a>(part: &Option<Part<'_, 'a>>, name: &[u8]) -> Option<&'a [u8]>
    ensures { Gives (λ value. value.now) result (kid_value name.now (kids_of_part part.now)) }
{
    match part {
        Some(part) => value_if_any(part.first_named(name)),
        None => None,
    }
}

/// The value of a property, if there is such a property.
pub(crate) fn value_if_any<'a>(property: Option<Part<'_, 'a>>) -> Option<&'a [u8]>
    ensures { Gives (λ value. value.now) result (option_and_then (λ part. value_at (codes "val") (part_element part)) property.entry) }
{
    match property {
        Some(property) => value_at(&property, b"val"),
        None => None,
    }
}

/// Whether it is this text.
pub(crate) fn is_text(text: &[u8], own: Option<&[u8]>) -> bool
    ensures { result ≡ is_text text.now (option_map (λ own. own.now) own.entry) }
{
    match own {
        Some(own) => own == text,
        None => false,
    }
}

fn is_off(text: &[u8]) -> bool
    ensures { result ≡ is_off text.now }
{
    text == b"0".as_slice() || text == b"false".as_slice() || text == b"off".as_slice()
}

/// Whether a value is on, or `other` where there is none.
pub(crate) fn on_or(other: bool, value: Option<&[u8]>) -> bool
    ensures { result ≡ on_or other (option_map (λ value. value.now) value.entry) }
{
    match value {
        Some(value) => !is_off(value),
        None => other,
    }
}

fn is_on(part: &Part<'_, '_>) -> bool
    ensures { result ≡ is_on (part_element part.now) }
{
    on_or(true, value_at(part, b"val"))
}

/// Whether the properties of a run hide it, where they say so.
pub(crate) fn vanish_in(properties: &Option<Part<'_, '_>>) -> Option<bool>
    ensures { result ≡ vanish_in (kids_of_part properties.now) }
{
    match properties {
        Some(properties) => vanish_of(properties.first_named(b"vanish")),
        None => None,
    }
}

fn vanish_of(vanish: Option<Part<'_, '_>>) -> Option<bool>
    ensures { result ≡ option_map (λ part. is_on (part_element part)) vanish.entry }
{
    match vanish {
        Some(vanish) => Some(is_on(&vanish)),
        None => None,
    }
}
