//! Values of properties.

ghost use Rattle.std.specs.Prelude.{◌≡◌, IfOk};
ghost use Rattle.redl_lists.specs.Parts.{part_element};
ghost use Rattle.redl_lists.specs.Tables.{id_at, is_text, kid_id, number_name};
ghost use Rattle.redl_lists.specs.Named.{first_named};
ghost use Rattle.redl_lists.specs.Values.{is_off, is_on, kid_number, kid_value, number_at, on_if, on_unless, value, value_at};
ghost use Rattle.std.specs.Option.{option_map};

use crate::part::Part;
use redl_io::Text;
use redl_numerals::{Format, Number, put_numeral, read_number};
use redl_stamp::attribute;
use std::alloc::{AllocError, Global};

/// An attribute of an element, decoded. `Err` means out of memory, here and below.
pub(crate) fn value_at(
    alloc: Global,
    part: &Part<'_, '_>,
    local: &[u8],
) -> Result<Option<Text>, AllocError>
    ensures { IfOk result (λ found. found ≡ value_at local.now (part_element part.now)) }
{
    attribute(alloc, part.tail(), local)
}

/// The number that it is.
pub(crate) fn number_at(
    alloc: Global,
    part: &Part<'_, '_>,
    local: &[u8],
) -> Result<Option<Number>, AllocError>
    ensures { IfOk result (λ found. found ≡ number_at local.now (part_element part.now)) }
{
    match value_at(alloc, part, local)? {
        Some(text) => Ok(read_number(text.as_bytes())),
        None => Ok(None),
    }
}

/// The value of the first of its kids with this name.
pub(crate) fn kid_value(
    alloc: Global,
    part: &Part<'_, '_>,
    name: &[u8],
) -> Result<Option<Text>, AllocError>
    ensures { IfOk result (λ found. found ≡ kid_value name.now (part_element part.now).kids) }
{
    match part.first_named(name) {
        Some(kid) => value_at(alloc, &kid, b"val"),
        None => Ok(None),
    }
}

/// The number that it is.
pub(crate) fn kid_number(
    alloc: Global,
    part: &Part<'_, '_>,
    name: &[u8],
) -> Result<Option<Number>, AllocError>
    ensures { IfOk result (λ found. found ≡ kid_number name.now (part_element part.now).kids) }
{
    match kid_value(alloc, part, name)? {
        Some(text) => Ok(read_number(text.as_bytes())),
        None => Ok(None),
    }
}

/// The name of a number, which each number has one of.
pub(crate) fn number_name(alloc: Global, number: Number) -> Result<Text, AllocError>
    ensures { IfOk result (λ name. name ≡ number_name number) }
{
    let mut name = Vec::new(alloc);
    put_numeral(Format::Decimal, number, &mut name)?;
    Text::copy_of(alloc, &name)
}

fn name_of_any(alloc: Global, number: Option<Number>) -> Result<Option<Text>, AllocError>
    ensures { IfOk result (λ name. name ≡ option_map number_name number) }
{
    match number {
        Some(number) => Ok(Some(number_name(alloc, number)?)),
        None => Ok(None),
    }
}

/// The name of the number that an attribute is.
pub(crate) fn id_at(
    alloc: Global,
    part: &Part<'_, '_>,
    local: &[u8],
) -> Result<Option<Text>, AllocError>
    ensures { IfOk result (λ id. id ≡ id_at local.now (part_element part.now)) }
{
    let number = number_at(alloc, part, local)?;
    name_of_any(alloc, number)
}

/// The name of the number that the first of its kids with this name says.
pub(crate) fn kid_id(
    alloc: Global,
    part: &Part<'_, '_>,
    name: &[u8],
) -> Result<Option<Text>, AllocError>
    ensures { IfOk result (λ id. id ≡ kid_id name.now (part_element part.now).kids) }
{
    let number = kid_number(alloc, part, name)?;
    name_of_any(alloc, number)
}

fn is_off(text: &[u8]) -> bool
    ensures { result ≡ is_off text.now }
{
    text == b"0".as_slice() || text == b"false".as_slice() || text == b"off".as_slice()
}

/// Whether an attribute is there, and on.
pub(crate) fn is_attribute_on(
    alloc: Global,
    part: &Part<'_, '_>,
    local: &[u8],
) -> Result<bool, AllocError>
    ensures { IfOk result (λ on. on ≡ on_if (value_at local.now (part_element part.now))) }
{
    match value_at(alloc, part, local)? {
        Some(text) => Ok(!is_off(text.as_bytes())),
        None => Ok(false),
    }
}

/// Whether a kid with this name is there, and on.
pub(crate) fn is_on(alloc: Global, part: &Part<'_, '_>, name: &[u8]) -> Result<bool, AllocError>
    ensures { IfOk result (λ on. on ≡ is_on (first_named name.now (part_element part.now).kids)) }
{
    match part.first_named(name) {
        Some(kid) => is_said_on(alloc, &kid),
        None => Ok(false),
    }
}

fn is_said_on(alloc: Global, part: &Part<'_, '_>) -> Result<bool, AllocError>
    ensures { IfOk result (λ on. on ≡ on_unless (value (part_element part.now))) }
{
    match value_at(alloc, part, b"val")? {
        Some(text) => Ok(!is_off(text.as_bytes())),
        None => Ok(true),
    }
}

/// Whether it is this text.
pub(crate) fn is_text(text: &[u8], own: &Option<Text>) -> bool
    ensures { result ≡ is_text text.now own.now }
{
    match own {
        Some(own) => own.as_bytes() == text,
        None => false,
    }
}
