//! Attributes and leaves.

ghost use Rattle.std.specs.Prelude.{◌≡◌, ◌++◌, IfOk, OnOk};

use crate::utf8::Utf8Text;
use std::alloc::{AllocError, Global};
use std::marker::Model;

/// An attribute: its local name, and its decoded value.
#[derive(Drop)]
pub struct Attribute {
    /// Its local name.
    pub name: Utf8Text,
    /// Its value.
    pub value: Utf8Text,
}

impl Attribute {
    /// An equal one. `Err` means out of memory.
    pub fn copy(&self, alloc: Global) -> Result<Attribute, AllocError>
        ensures { IfOk result (λ copy. copy ≡ self.now) }
    {
        let name = self.name.copy(alloc)?;
        let value = self.value.copy(alloc)?;
        Ok(Attribute { name, value })
    }
}

/// Adds copies of attributes. `Err` means out of memory.
pub(crate) fn push_copies(
    alloc: Global,
    attributes: &[Attribute],
    copies: &mut Vec<Attribute>,
) -> Result<(), AllocError>
    ensures { OnOk result (copies.new.items ≡ copies.old.items ++ attributes.now) }
{
    for attribute in attributes {
        let copy = attribute.copy(alloc)?;
        copies.push(copy)?;
    }
    Ok(())
}

/// The attributes of an element, in their order. Contracts see the list of them.
#[derive(Drop)]
pub struct Attributes {
    list: Vec<Attribute>,
}

impl Model for Attributes {
    ghost use Rattle.std.specs.Prelude.{List};
    ghost use Rattle.redl_properties.specs.declared.attribute.Attribute.{Attribute};

    ghost Value = { List Attribute };

    ghost view = { λ attributes. attributes.list.items };
}

impl Attributes {
    /// These.
    pub fn new(list: Vec<Attribute>) -> Attributes
        ensures { result ≡ list.items }
    {
        Attributes { list }
    }

    /// The list of them.
    pub fn list(&self) -> &[Attribute]
        ensures { result.now ≡ self.now }
    {
        &self.list
    }

    /// Equal ones. `Err` means out of memory.
    pub fn copy(&self, alloc: Global) -> Result<Attributes, AllocError>
        ensures { IfOk result (λ copy. copy ≡ self.now) }
    {
        let mut list = Vec::new(alloc);
        push_copies(alloc, &self.list, &mut list)?;
        Ok(Attributes { list })
    }
}

/// An element without elements in it, in a list of properties: its path, and its attributes.
#[derive(Drop)]
pub struct Leaf {
    /// The names of the elements from the list down to it, with `/` between.
    pub path: Utf8Text,
    /// Its attributes.
    pub attributes: Attributes,
}

/// The attributes of several elements. Contracts see a list of lists.
#[derive(Drop)]
pub struct Leaves {
    list: Vec<Attributes>,
}

impl Model for Leaves {
    ghost use Rattle.std.specs.Prelude.{List};
    ghost use Rattle.redl_properties.specs.declared.attribute.Attribute.{Attribute};

    ghost Value = { List (List Attribute) };

    ghost view = { λ leaves. leaves.list.items };
}

impl Leaves {
    /// These.
    pub fn new(list: Vec<Attributes>) -> Leaves
        ensures { result ≡ list.items }
    {
        Leaves { list }
    }

    /// The list of them.
    pub fn list(&self) -> &[Attributes]
        ensures { result.now ≡ self.now }
    {
        &self.list
    }

    /// Equal ones. `Err` means out of memory.
    pub fn copy(&self, alloc: Global) -> Result<Leaves, AllocError>
        ensures { IfOk result (λ copy. copy ≡ self.now) }
    {
        let list = copies(alloc, &self.list)?;
        Ok(Leaves { list })
    }
}

fn copies(alloc: Global, leaves: &[Attributes]) -> Result<Vec<Attributes>, AllocError>
    ensures { IfOk result (λ copies. copies.items ≡ leaves.now) }
{
    let mut copies = Vec::new(alloc);
    for leaf in leaves {
        let copy = leaf.copy(alloc)?;
        copies.push(copy)?;
    }
    Ok(copies)
}
