//! What leaves with one path set.

ghost use Rattle.std.specs.Prelude.{◌≡◌, ◌≤◌, ◌++◌, IfOk, OnOk, bytes_eq, find, length, reverse, if◌then◌else◌};
ghost use Rattle.std.specs.Option.{option_copied};
ghost use Rattle.std.specs.List.{list_any};
ghost use Rattle.redl_reading.specs.Steps.{Gives};
ghost use Rattle.redl_properties.specs.Leaves.{comes_first, last_value, leaf_at, leaves_at, path_comes_first, set_at, set_by, set_in};
ghost use Rattle.redl_properties.specs.declared.attribute.Attribute.{Attribute};
ghost use Rattle.redl_properties.specs.declared.attribute.Leaf.{Leaf};

use crate::attribute::{Attribute, Attributes, Leaf, push_copies};
use crate::utf8::Utf8Text;
use std::alloc::{AllocError, Global};

/// The value of the last attribute with this name.
pub(crate) fn last_value<'a>(name: &[u8], attributes: &'a [Attribute]) -> Option<&'a [u8]>
    ensures { Gives (λ value. value.now) result (last_value name.now attributes.now) }
{
    match last_named(name, attributes) {
        Some(attribute) => Some(attribute.value.as_bytes()),
        None => None,
    }
}

fn last_named<'a>(name: &[u8], attributes: &'a [Attribute]) -> Option<&'a Attribute>
    ensures { option_copied result ≡ find (λ (attribute : Attribute). bytes_eq attribute.name name.now) (reverse attributes.now) }
{
    attributes
        .iter()
        .rev()
        .find(|attribute| attribute.name.as_bytes() == name)
}

fn has_name(name: &[u8], attributes: &[Attribute]) -> bool
    ensures { result ≡ list_any (λ (attribute : Attribute). bytes_eq attribute.name name.now) attributes.now }
{
    attributes
        .iter()
        .any(|attribute| attribute.name.as_bytes() == name)
}

fn has_path(path: &[u8], leaves: &[Leaf]) -> bool
    ensures { result ≡ list_any (λ (leaf : Leaf). bytes_eq leaf.path path.now) leaves.now }
{
    leaves.iter().any(|leaf| leaf.path.as_bytes() == path)
}

/// Whether no attribute before this place has this name.
pub(crate) fn comes_first(name: &[u8], attributes: &[Attribute], place: usize) -> bool
    requires { place ≤ length attributes.now }
    ensures { result ≡ comes_first name.now attributes.now place }
{
    !has_name(name, &attributes[..place])
}

/// Whether no leaf before this place has this path.
pub(crate) fn path_comes_first(path: &[u8], leaves: &[Leaf], place: usize) -> bool
    requires { place ≤ length leaves.now }
    ensures { result ≡ path_comes_first path.now leaves.now place }
{
    !has_path(path, &leaves[..place])
}

/// Adds what the leaves with this path set, one after the other. `Err` means out of memory.
pub(crate) fn push_set(
    alloc: Global,
    path: &[u8],
    leaves: &[Leaf],
    set: &mut Vec<Attribute>,
) -> Result<(), AllocError>
    ensures { OnOk result (set.new.items ≡ set.old.items ++ set_at path.now leaves.now) }
{
    for leaf in leaves {
        push_set_in(alloc, path, leaf, set)?;
    }
    Ok(())
}

fn push_set_in(
    alloc: Global,
    path: &[u8],
    leaf: &Leaf,
    set: &mut Vec<Attribute>,
) -> Result<(), AllocError>
    ensures { OnOk result (set.new.items ≡ set.old.items ++ set_in path.now leaf.now) }
{
    if leaf.path.as_bytes() != path {
        return Ok(());
    }
    push_set_by(alloc, leaf.attributes.list(), set)
}

fn push_set_by(
    alloc: Global,
    attributes: &[Attribute],
    set: &mut Vec<Attribute>,
) -> Result<(), AllocError>
    ensures { OnOk result (set.new.items ≡ set.old.items ++ set_by attributes.now) }
{
    if attributes.is_empty() {
        let name = Utf8Text::of_str(alloc, "val")?;
        let value = Utf8Text::of_str(alloc, "on")?;
        set.push(Attribute { name, value })?;
        return Ok(());
    }
    push_copies(alloc, attributes, set)
}

/// The attributes of the leaves with this path. `Err` means out of memory.
pub(crate) fn leaves_at(
    alloc: Global,
    path: &[u8],
    leaves: &[Leaf],
) -> Result<Vec<Attributes>, AllocError>
    ensures { IfOk result (λ found. found.items ≡ leaves_at path.now leaves.now) }
{
    let mut found = Vec::new(alloc);
    for leaf in leaves {
        push_leaf(alloc, path, leaf, &mut found)?;
    }
    Ok(found)
}

fn push_leaf(
    alloc: Global,
    path: &[u8],
    leaf: &Leaf,
    found: &mut Vec<Attributes>,
) -> Result<(), AllocError>
    ensures { OnOk result (found.new.items ≡ found.old.items ++ leaf_at path.now leaf.now) }
{
    if leaf.path.as_bytes() != path {
        return Ok(());
    }
    let copy = leaf.attributes.copy(alloc)?;
    found.push(copy)?;
    Ok(())
}
