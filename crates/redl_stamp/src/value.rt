//! Values of attributes, found by their local name.

ghost use Rattle.std.specs.Prelude.{◌≡◌, is_some, IfOk, IfSome};
ghost use Rattle.std.specs.Option.{option_map};
ghost use Rattle.std.specs.Str.{IsUtf8};
ghost use Rattle.redl_markup.specs.Decoding.{decoded_value};
ghost use Rattle.redl_reading.specs.Steps.{Gives};
ghost use Rattle.redl_markup.specs.Views.{attribute_view};
ghost use Rattle.redl_stamp.specs.Attribute.{has_local_name, written_value, attribute_value};

use redl_io::Text;
use redl_markup::{Attribute, decode_value, is_literal, next_attribute};
use std::alloc::{AllocError, Global};

/// Whether an attribute has this local name and is no declaration of a namespace.
pub(crate) fn has_local_name(attribute: &Attribute<'_>, local: &[u8]) -> bool
    ensures { result ≡ has_local_name local.now (attribute_view attribute.now) }
{
    attribute.name.local == local && attribute.name.prefix != b"xmlns".as_slice()
}

// The value of the first attribute of the tail with this local name, as it is written.
fn written_value<'a>(tail: &'a [u8], local: &[u8]) -> Option<&'a [u8]>
    ensures value { Gives (λ value. value.now) result (written_value tail.now local.now) }
    ensures utf8 { IsUtf8 tail.now → IfSome result (λ value. IsUtf8 value.now) }
{
    let mut left = tail;
    while let Some((attribute, rest)) = next_attribute(left) {
        if has_local_name(&attribute, local) {
            return Some(attribute.value);
        }
        left = rest;
    }
    None
}

/// Whether a tag's tail has an attribute with this local name and a prefix other than `xmlns`.
pub fn has_attribute(tail: &[u8], local: &[u8]) -> bool
    ensures { result ≡ is_some (attribute_value tail.now local.now) }
{
    written_value(tail, local).is_some()
}

/// The decoded value of the first attribute of a tag's tail with this local name and a prefix other than `xmlns`, or none.
///
/// A tail is all between a tag's name and its `>` or `/>`. `None` exactly if the tail has no such attribute. `Err` means out
/// of memory.
pub fn attribute(alloc: Global, tail: &[u8], local: &[u8]) -> Result<Option<Text>, AllocError>
    ensures value { IfOk result (λ found. found ≡ attribute_value tail.now local.now) }
    ensures utf8 { IsUtf8 tail.now → IfOk result (λ found. IfSome found IsUtf8) }
{
    decoded(alloc, written_value(tail, local))
}

/// The decoded value, if there is a written one. `Err` means out of memory.
pub(crate) fn decoded(alloc: Global, written: Option<&[u8]>) -> Result<Option<Text>, AllocError>
    ensures value { IfOk result (λ found. found ≡ option_map decoded_value (option_map (λ value. value.now) written.entry)) }
    ensures utf8 { IfSome written.entry (λ value. IsUtf8 value.now) → IfOk result (λ found. IfSome found IsUtf8) }
{
    let Some(written) = written else {
        return Ok(None);
    };
    if is_literal(written) {
        return Ok(Some(Text::copy_of(alloc, written)?));
    }
    let value = decode_value(alloc, written)?;
    let text = Text::copy_of(alloc, &value)?;
    Ok(Some(text))
}
