//! Changed properties.

ghost use Rattle.std.specs.Prelude.{◌≡◌, ◌++◌, [], IfOk, OnOk};
ghost use Rattle.redl_properties.specs.Changes.{differing};
ghost use Rattle.redl_properties.specs.Said.{said_change};
ghost use Rattle.redl_properties.specs.Utf8.{text_or_nothing};

use crate::said::push_change;
use crate::utf8::Utf8Text;
use crate::value::Value;
use std::alloc::{AllocError, Global};
use std::marker::Model;

/// A property that differs.
#[derive(Drop)]
pub struct Changed {
    /// Its path, or its path, `@` and the name of an attribute.
    pub property: Utf8Text,
    /// Its former value.
    pub from: Value,
    /// Its present value.
    pub to: Value,
    /// Its name, and both values, in words.
    pub said: Utf8Text,
}

impl Changed {
    /// An equal one. `Err` means out of memory.
    pub fn copy(&self, alloc: Global) -> Result<Changed, AllocError>
        ensures { IfOk result (λ copy. copy ≡ self.now) }
    {
        let property = self.property.copy(alloc)?;
        let from = self.from.copy(alloc)?;
        let to = self.to.copy(alloc)?;
        let said = self.said.copy(alloc)?;
        Ok(Changed {
            property,
            from,
            to,
            said,
        })
    }
}

/// The properties that a change changes. Contracts see the list of them.
#[derive(Drop)]
pub struct Changes {
    list: Vec<Changed>,
}

impl Model for Changes {
    ghost use Rattle.std.specs.Prelude.{List};
    ghost use Rattle.redl_properties.specs.declared.change.Changed.{Changed};

    ghost Value = { List Changed };

    ghost view = { λ changes. changes.list.items };
}

impl Changes {
    /// None. It takes no memory.
    pub fn none(alloc: Global) -> Changes
        ensures { result ≡ [] }
    {
        Changes {
            list: Vec::new(alloc),
        }
    }

    /// These.
    pub(crate) fn new(list: Vec<Changed>) -> Changes
        ensures { result ≡ list.items }
    {
        Changes { list }
    }

    /// The list of them.
    pub fn list(&self) -> &[Changed]
        ensures { result.now ≡ self.now }
    {
        &self.list
    }

    /// Equal ones. `Err` means out of memory.
    pub fn copy(&self, alloc: Global) -> Result<Changes, AllocError>
        ensures { IfOk result (λ copy. copy ≡ self.now) }
    {
        let list = copies(alloc, &self.list)?;
        Ok(Changes { list })
    }
}

fn copies(alloc: Global, changes: &[Changed]) -> Result<Vec<Changed>, AllocError>
    ensures { IfOk result (λ copies. copies.items ≡ changes.now) }
{
    let mut copies = Vec::new(alloc);
    for change in changes {
        let copy = change.copy(alloc)?;
        copies.push(copy)?;
    }
    Ok(copies)
}

/// Adds the property with this path or key, where its two values differ. `Err` means out of memory.
pub(crate) fn push_differing(
    alloc: Global,
    property: &[u8],
    from: Value,
    to: Value,
    changes: &mut Vec<Changed>,
) -> Result<(), AllocError>
    ensures { OnOk result (changes.new.items ≡ changes.old.items ++ differing property.now from to) }
{
    if from.is_same(&to) {
        return Ok(());
    }
    let said = said(alloc, property, &from, &to)?;
    let property = Utf8Text::of(alloc, property)?;
    changes.push(Changed {
        property,
        from,
        to,
        said,
    })?;
    Ok(())
}

fn said(alloc: Global, property: &[u8], from: &Value, to: &Value) -> Result<Utf8Text, AllocError>
    ensures { IfOk result (λ text. text ≡ text_or_nothing (said_change property.now from.now to.now)) }
{
    let mut line = Vec::new(alloc);
    push_change(&mut line, property, from, to)?;
    Utf8Text::of(alloc, &line)
}
