//! Values of attributes, as they are written.

ghost use Rattle.std.specs.Prelude.{◌≡◌};
ghost use Rattle.redl_reading.specs.Steps.{Gives};
ghost use Rattle.redl_markup.specs.Views.{attribute_view};
ghost use Rattle.redl_stamp.specs.Attribute.{has_local_name, written_value};
ghost use Rattle.redl_relations.specs.Values.{value_in};

use redl_markup::{Attribute, next_attribute};

/// The value of the first attribute of a tag's tail with this local name, as it is written, or the empty text without one.
pub fn value_in<'a>(tail: &'a [u8], local: &[u8]) -> &'a [u8]
    ensures { result.now ≡ value_in tail.now local.now }
{
    match written_value(tail, local) {
        Some(value) => value,
        None => b"",
    }
}

fn written_value<'a>(tail: &'a [u8], local: &[u8]) -> Option<&'a [u8]>
    ensures { Gives (λ value. value.now) result (written_value tail.now local.now) }
{
    let mut left = tail;
    while let Some((attribute, rest)) = next_attribute(left) {
        if has_local_name(&attribute, local) {
            return Some(attribute.value);
        }
        left = rest;
    }
    None
}

// Whether an attribute has this local name and is no declaration of a namespace.
fn has_local_name(attribute: &Attribute<'_>, local: &[u8]) -> bool
    ensures { result ≡ has_local_name local.now (attribute_view attribute.now) }
{
    attribute.name.local == local && attribute.name.prefix != b"xmlns".as_slice()
}
