//! The values of a stamp, as they are written.

ghost use Rattle.std.specs.Prelude.{◌≡◌, codes, IfSome};
ghost use Rattle.std.specs.Option.{option_map, option_or};
ghost use Rattle.std.specs.Str.{IsUtf8};
ghost use Rattle.redl_markup.specs.Views.{attribute_view};
ghost use Rattle.redl_stamp.specs.Attribute.{written_value, own_value};

use crate::value::has_local_name;
use redl_markup::{Attribute, next_attribute};

/// The values of a stamp, as they are written. Each is that of the first attribute with its name.
#[derive(Clone, Copy)]
pub(crate) struct Written<'a> {
    /// Of the attribute `author`.
    pub(crate) author: Option<&'a [u8]>,
    /// Of the attribute `date`.
    pub(crate) date: Option<&'a [u8]>,
    /// Of the attribute `name`.
    pub(crate) name: Option<&'a [u8]>,
    /// Of the attribute `id`.
    pub(crate) id: Option<&'a [u8]>,
}

impl<'a> Written<'a> {
    /// The values in a tag's tail. It reads the attributes once.
    pub(crate) fn read(tail: &'a [u8]) -> Written<'a>
        ensures author { option_map (λ value. value.now) result.author ≡ written_value tail.now (codes "author") }
        ensures date { option_map (λ value. value.now) result.date ≡ written_value tail.now (codes "date") }
        ensures name { option_map (λ value. value.now) result.name ≡ written_value tail.now (codes "name") }
        ensures id { option_map (λ value. value.now) result.id ≡ written_value tail.now (codes "id") }
        ensures utf8 { IsUtf8 tail.now → IfSome result.author (λ value. IsUtf8 value.now) }
        ensures utf8_name { IsUtf8 tail.now → IfSome result.name (λ value. IsUtf8 value.now) }
        ensures utf8_id { IsUtf8 tail.now → IfSome result.id (λ value. IsUtf8 value.now) }
    {
        let mut written = Written {
            author: None,
            date: None,
            name: None,
            id: None,
        };
        let mut left = tail;
        while let Some((attribute, rest)) = next_attribute(left) {
            written = written.with(&attribute);
            left = rest;
        }
        written
    }

    // These values, and this attribute's value if no earlier attribute had its name.
    fn with(self, attribute: &Attribute<'a>) -> Written<'a>
        ensures author { option_map (λ value. value.now) result.author
            ≡ option_or (option_map (λ value. value.now) self.entry.author) (own_value (codes "author") (attribute_view attribute.now)) }
        ensures date { option_map (λ value. value.now) result.date
            ≡ option_or (option_map (λ value. value.now) self.entry.date) (own_value (codes "date") (attribute_view attribute.now)) }
        ensures name { option_map (λ value. value.now) result.name
            ≡ option_or (option_map (λ value. value.now) self.entry.name) (own_value (codes "name") (attribute_view attribute.now)) }
        ensures id { option_map (λ value. value.now) result.id
            ≡ option_or (option_map (λ value. value.now) self.entry.id) (own_value (codes "id") (attribute_view attribute.now)) }
        ensures utf8 { IfSome self.entry.author (λ value. IsUtf8 value.now) → IsUtf8 attribute.now.value.now
            → IfSome result.author (λ value. IsUtf8 value.now) }
        ensures utf8_name { IfSome self.entry.name (λ value. IsUtf8 value.now) → IsUtf8 attribute.now.value.now
            → IfSome result.name (λ value. IsUtf8 value.now) }
        ensures utf8_id { IfSome self.entry.id (λ value. IsUtf8 value.now) → IsUtf8 attribute.now.value.now
            → IfSome result.id (λ value. IsUtf8 value.now) }
    {
        Written {
            author: first_value(self.author, attribute, b"author"),
            date: first_value(self.date, attribute, b"date"),
            name: first_value(self.name, attribute, b"name"),
            id: first_value(self.id, attribute, b"id"),
        }
    }
}

// The value found so far, or else that of the attribute if it has this local name.
fn first_value<'a>(
    found: Option<&'a [u8]>,
    attribute: &Attribute<'a>,
    local: &[u8],
) -> Option<&'a [u8]>
    ensures value { option_map (λ value. value.now) result
        ≡ option_or (option_map (λ value. value.now) found.entry) (own_value local.now (attribute_view attribute.now)) }
    ensures utf8 { IfSome found.entry (λ value. IsUtf8 value.now) → IsUtf8 attribute.now.value.now
        → IfSome result (λ value. IsUtf8 value.now) }
{
    match found {
        None if has_local_name(attribute, local) => Some(attribute.value),
        _ => found,
    }
}
