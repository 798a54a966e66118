//! The attributes of a tag.

ghost use Rattle.std.specs.Prelude.{◌≡◌, ◌<◌, [], ◌∷◌, length, codes, true, Some, IsNone, IfSome};
ghost use Rattle.std.specs.List.{list_all};
ghost use Rattle.std.specs.Str.{IsUtf8};
ghost use Rattle.redl_markup.specs.Attributes.{attributes_of};
ghost use Rattle.redl_reading.specs.Lists.{is_other, field_at};
ghost use Rattle.redl_reading.specs.Steps.{Gives};
ghost use Rattle.redl_grammar.specs.ScanTags.{quote_at, opening_at, equated_at, is_plain, is_value, value_at, attribute_at, attribute_behind, attribute_in};
ghost use Rattle.redl_markup.specs.Views.{attribute_view};

use crate::name::{Name, whole_name};
use crate::near::near_until_any;
use crate::reference::are_references;
use crate::space::spaces;
use redl_reading::{field, skip};

/// An attribute as it is written: its name, and its value without the quotes.
#[derive(Clone, Copy, Debug, PartialEq, Eq)]
pub struct Attribute<'a> {
    /// Its name.
    pub name: Name<'a>,
    /// The value between the quotes, as it is written.
    pub value: &'a [u8],
}

#[tactic(auto, unfolding(redl_grammar::specs::ScanTags::quote_at))]
fn quote(bytes: &[u8]) -> Option<(u8, &[u8])>
    ensures { Gives (λ x. (x.0, x.1.now)) result (quote_at bytes.now) }
{
    match bytes {
        [first, rest @ ..] if *first == b'"' || *first == b'\'' => Some((*first, rest)),
        _ => None,
    }
}

// A `=` in white space and the quote behind it, and the bytes after the quote.
#[tactic(auto, unfolding(redl_grammar::specs::ScanTags::opening_at))]
#[inline(always)]
fn opening(bytes: &[u8]) -> Option<(u8, &[u8])>
    ensures { Gives (λ x. (x.0, x.1.now)) result (opening_at bytes.now) }
{
    let (_, rest) = spaces(bytes);
    let rest = skip(rest, b"=")?;
    let (_, rest) = spaces(rest);
    quote(rest)
}

/// A `=` in white space, and a text between quotes.
pub(crate) fn equated(bytes: &[u8]) -> Option<(&[u8], &[u8])>
    ensures { Gives (λ x. (x.0.now, x.1.now)) result (equated_at bytes.now) }
{
    let (quote, rest) = opening(bytes)?;
    field(rest, quote)
}

// Whether a value has neither `<` nor `&`, and so needs no further test.
fn is_plain(bytes: &[u8]) -> bool
    ensures { result ≡ list_all is_plain bytes.now }
{
    bytes.iter().all(|b| *b != b'<' && *b != b'&')
}

fn has_no_tag(bytes: &[u8]) -> bool
    ensures { result ≡ list_all (is_other 60) bytes.now }
{
    bytes.iter().all(|b| *b != b'<')
}

#[tactic(auto, unfolding(redl_grammar::specs::ScanTags::is_value), using(redl_grammar::proofs::Attributes::plain_value))]
fn is_value(bytes: &[u8]) -> bool
    ensures { result ≡ is_value bytes.now }
{
    is_plain(bytes) || has_no_tag(bytes) && are_references(bytes)
}

// A value before this quote, and the bytes after the quote, if the value needs no test of its own. Most values are so.
#[inline(always)]
fn plain_value(bytes: &[u8], quote: u8) -> Option<(&[u8], &[u8])>
    ensures { IfSome result (λ x. (field_at quote bytes.now ≡ Some (x.0.now, x.1.now)) × (is_value x.0.now ≡ true)) }
{
    let (value, rest) = near_until_any(bytes, quote, b'<', b'&');
    let rest = skip(rest, &[quote])?;
    Some((value, rest))
}

// A value with its `=`, and the bytes after it.
#[inline(always)]
fn value(bytes: &[u8]) -> Option<(&[u8], &[u8])>
    ensures { Gives (λ x. (x.0.now, x.1.now)) result (value_at bytes.now) }
{
    let (quote, rest) = opening(bytes)?;
    if let Some((value, rest)) = plain_value(rest, quote) {
        return Some((value, rest));
    }
    let (value, rest) = field(rest, quote)?;
    if is_value(value) {
        Some((value, rest))
    } else {
        None
    }
}

#[inline(always)]
fn attribute_behind_gap(bytes: &[u8]) -> Option<(Attribute<'_>, &[u8])>
    ensures { Gives (λ x. (attribute_view x.0, x.1.now)) result (attribute_at bytes.now) }
{
    let (name, rest) = whole_name(bytes)?;
    let (value, rest) = value(rest)?;
    Some((Attribute { name, value }, rest))
}

/// The attribute behind some white space, and the bytes after it. `None` also if the white space is empty.
#[inline(always)]
pub(crate) fn attribute_behind<'a>(gap: &[u8], bytes: &'a [u8]) -> Option<(Attribute<'a>, &'a [u8])>
    ensures { Gives (λ x. (attribute_view x.0, x.1.now)) result (attribute_behind gap.now bytes.now) }
{
    if gap.is_empty() {
        return None;
    }
    attribute_behind_gap(bytes)
}

// The first attribute of a tail with the white space before it, and the rest of the tail.
#[tactic(auto, unfolding(redl_grammar::specs::ScanTags::attribute_in))]
fn first_attribute(tail: &[u8]) -> Option<(Attribute<'_>, &[u8])>
    ensures { Gives (λ x. (attribute_view x.0, x.1.now)) result (attribute_in tail.now) }
{
    let (gap, bytes) = spaces(tail);
    attribute_behind(gap, bytes)
}

/// The first attribute of a tail, and the rest of the tail. `None` if the tail has no further attribute.
pub fn next_attribute(tail: &[u8]) -> Option<(Attribute<'_>, &[u8])>
    ensures found { IfSome result (λ x. attributes_of tail.now ≡ attribute_view x.0 ∷ attributes_of x.1.now) }
    ensures none { IsNone result → attributes_of tail.now ≡ [] }
    ensures shorter { IfSome result (λ x. length x.1.now < length tail.now) }
    ensures utf8 { IsUtf8 tail.now → IfSome result (λ x. IsUtf8 x.0.value.now × IsUtf8 x.1.now) }
{
    first_attribute(tail)
}
