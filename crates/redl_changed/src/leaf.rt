//! One leaf.

ghost use Rattle.std.specs.Prelude.{◌≡◌, [], IfOk, OnOk};
ghost use Rattle.redl_markup.specs.Attributes.{attributes_of};
ghost use Rattle.redl_markup.specs.Views.{attribute_view};
ghost use Rattle.redl_changed.specs.Kept.{with_leaf};
ghost use Rattle.redl_changed.specs.Leaves.{attribute_of, attributes_kept, has_name, is_declaration, is_small, leaf_of, with_attribute};
ghost use Rattle.redl_properties.specs.declared.attribute.Attribute.{Attribute};

use crate::kept::Kept;
use crate::names::attribute_name;
use redl_markup::{Attribute as Written, decode_value, next_attribute};
use redl_properties::{Attribute, Attributes, Leaf, Utf8Text};
use std::alloc::{AllocError, Global};

// How many bytes the path and the tail of a leaf have at most that is compared.
const PATH: usize = 255;

const TAIL: usize = 2000;

/// Adds the leaf with this path and this tail. `Err` means out of memory.
pub(crate) fn push_leaf(
    alloc: Global,
    path: &[u8],
    tail: &[u8],
    kept: &mut Kept,
) -> Result<(), AllocError>
    ensures { OnOk result (kept.new ≡ with_leaf kept.old (leaf_of path.now tail.now)) }
{
    if !is_small(path, tail) {
        kept.cut();
        return Ok(());
    }
    let attributes = attributes(alloc, path, tail)?;
    let path = Utf8Text::of(alloc, path)?;
    kept.add(Leaf { path, attributes })
}

fn is_small(path: &[u8], tail: &[u8]) -> bool
    ensures { result ≡ is_small path.now tail.now }
{
    path.len() <= PATH && tail.len() <= TAIL
}

// The attributes in a tail, but for declarations. Of several with one name the first counts.
fn attributes(alloc: Global, path: &[u8], tail: &[u8]) -> Result<Attributes, AllocError>
    ensures { IfOk result (λ list. list ≡ attributes_kept path.now [] (attributes_of tail.now)) }
{
    let mut list = Vec::new(alloc);
    let mut left = tail;
    while let Some((attribute, rest)) = next_attribute(left) {
        push_attribute(alloc, path, &attribute, &mut list)?;
        left = rest;
    }
    Ok(Attributes::new(list))
}

fn push_attribute(
    alloc: Global,
    path: &[u8],
    written: &Written<'_>,
    list: &mut Vec<Attribute>,
) -> Result<(), AllocError>
    ensures { OnOk result (list.new.items ≡ with_attribute path.now list.old.items (attribute_view written.now)) }
{
    if is_declaration(written) {
        return Ok(());
    }
    let attribute = attribute_of(alloc, path, written)?;
    if has_name(list.as_slice(), attribute.name.as_bytes()) {
        return Ok(());
    }
    list.push(attribute)?;
    Ok(())
}

// Whether an attribute declares a namespace.
fn is_declaration(written: &Written<'_>) -> bool
    ensures { result ≡ is_declaration (attribute_view written.now) }
{
    written.name.prefix == b"xmlns".as_slice()
        || (written.name.prefix.is_empty() && written.name.local == b"xmlns".as_slice())
}

fn has_name(list: &[Attribute], name: &[u8]) -> bool
    ensures { result ≡ has_name name.now list.now }
{
    list.iter()
        .any(|attribute| attribute.name.as_bytes() == name)
}

fn attribute_of(alloc: Global, path: &[u8], written: &Written<'_>) -> Result<Attribute, AllocError>
    ensures { IfOk result (λ attribute. attribute ≡ attribute_of path.now (attribute_view written.now)) }
{
    let name = attribute_name(alloc, path, written.name.local)?;
    let name = Utf8Text::of(alloc, &name)?;
    let value = decode_value(alloc, written.value)?;
    let value = Utf8Text::of(alloc, &value)?;
    Ok(Attribute { name, value })
}
