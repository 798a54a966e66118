//! What the rules ask of a tag's attributes.

ghost use Rattle.std.specs.Prelude.{◌≡◌, not};
ghost use Rattle.std.specs.List.{list_all};
ghost use Rattle.redl_reading.specs.Lists.{is_other};
ghost use Rattle.redl_markup.specs.Views.{attribute_view};
ghost use Rattle.redl_rules.specs.Attributes.{has_id as has_id_tail, is_declaration, declares};

use bstr::ByteSlice;
use redl_markup::{Attribute, next_attribute};
use redl_stamp::has_attribute;

/// Whether a tag has an `id`.
pub fn has_id(tail: &[u8]) -> bool
    ensures { result ≡ has_id_tail tail.now }
{
    has_attribute(tail, b"id")
}

/// Whether a tag declares a namespace.
#[tactic(auto, using(crate::proofs::DeclarationLaws::without_x, crate::proofs::DeclarationLaws::without_n))]
pub fn declares_names(tail: &[u8]) -> bool
    ensures { result ≡ declares tail.now }
{
    // Most tails lack one of these, and so `xmlns`: their attributes aren't read. `w14:textId` has an `x` and no `n`.
    has_byte(tail, b'x') && has_byte(tail, b'n') && has_declaration(tail)
}

fn has_byte(tail: &[u8], byte: u8) -> bool
    ensures { result ≡ not (list_all (is_other byte) tail.now) }
{
    tail.find_byte(byte).is_some()
}

fn has_declaration(tail: &[u8]) -> bool
    ensures { result ≡ declares tail.now }
{
    let mut left = tail;
    while let Some((attribute, rest)) = next_attribute(left) {
        if is_declaration(&attribute) {
            return true;
        }
        left = rest;
    }
    false
}

// Whether an attribute is named `xmlns`, or has this prefix.
fn is_declaration(attribute: &Attribute<'_>) -> bool
    ensures { result ≡ is_declaration (attribute_view attribute.now) }
{
    let name = attribute.name;
    name.prefix == b"xmlns".as_slice()
        || (name.prefix.is_empty() && name.local == b"xmlns".as_slice())
}
