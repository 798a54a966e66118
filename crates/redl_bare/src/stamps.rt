//! Who made a change, and when: one look at the attributes of its tag finds both.

ghost use Rattle.std.specs.Prelude.{◌≡◌, ◌∷◌, List, ℕ, [], take, codes, true};
ghost use Rattle.redl_grammar.specs.Names.{Name};
ghost use Rattle.redl_markup.specs.Attributes.{attributes_of};
ghost use Rattle.redl_markup.specs.Views.{attribute_view};
ghost use Rattle.redl_reading.specs.Steps.{or_else};
ghost use Rattle.redl_stamp.specs.Attribute.{has_local_name, own_value};
ghost use Rattle.redl_bare.specs.Marks.{stamp_in};
ghost use Rattle.redl_bare.specs.Inside.Stamps.{value_view, stamp_with};
ghost use Rattle.redl_bare.specs.Inside.Views.{stamp_view};

use redl_marks::Stamp;
use redl_markup::{Attribute, next_attribute};

// The bytes of `YYYY-MM-DDThh:mm`.
const MINUTE: usize = 16;

// The values of the two attributes of a stamp, as far as they are found.
#[derive(Clone, Copy)]
struct Values<'a> {
    author: Option<&'a [u8]>,
    date: Option<&'a [u8]>,
}

/// The stamp in a tag's tail.
pub(crate) fn stamp_in<'a>(tail: &'a [u8]) -> Stamp<'a>
    ensures { stamp_view result ≡ stamp_in tail.now }
{
    let mut values = Values {
        author: None,
        date: None,
    };
    let mut left = tail;
    while let Some((attribute, rest)) = next_attribute(left) {
        values = values.with(&attribute);
        if values.are_found() {
            return values.stamp();
        }
        left = rest;
    }
    values.stamp()
}

impl<'a> Values<'a> {
    // The same with what the next attribute adds.
    fn with(self, attribute: &Attribute<'a>) -> Values<'a>
        ensures { (rest : List (Name × List ℕ)) → stamp_with result rest ≡ stamp_with self.entry (attribute_view attribute.now ∷ rest) }
    {
        Values {
            author: first_of(self.author, attribute, b"author"),
            date: first_of(self.date, attribute, b"date"),
        }
    }

    // Whether both are found, so that no further attribute matters.
    fn are_found(self) -> bool
        ensures { result ≡ true → (rest : List (Name × List ℕ)) → stamp_with self.entry rest ≡ stamp_with self.entry [] }
    {
        self.author.is_some() && self.date.is_some()
    }

    fn stamp(self) -> Stamp<'a>
        ensures { stamp_view result ≡ stamp_with self.entry [] }
    {
        Stamp {
            author: self.author.unwrap_or(b""),
            minute: minute_of(self.date.unwrap_or(b"")),
        }
    }
}

// The value that is found, or else that of an attribute with this local name.
fn first_of<'a>(
    found: Option<&'a [u8]>,
    attribute: &Attribute<'a>,
    local: &[u8],
) -> Option<&'a [u8]>
    ensures { value_view result ≡ or_else (value_view found.entry) (own_value local.now (attribute_view attribute.now)) }
{
    match found {
        Some(_) => found,
        None if has_local_name(attribute, local) => Some(attribute.value),
        None => None,
    }
}

// Whether an attribute has this local name and is no declaration of a namespace.
fn has_local_name(attribute: &Attribute<'_>, local: &[u8]) -> bool
    ensures { result ≡ has_local_name local.now (attribute_view attribute.now) }
{
    attribute.name.local == local && attribute.name.prefix != b"xmlns".as_slice()
}

fn minute_of(date: &[u8]) -> &[u8]
    ensures { result.now ≡ take 16 date.now }
{
    if date.len() <= MINUTE {
        return date;
    }
    &date[..MINUTE]
}
