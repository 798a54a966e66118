//! The members `changed` and `changed_more` of the format `full`.

ghost use Rattle.std.specs.Prelude.{◌≡◌, ◌++◌, ◌∷◌, OnOk, [], codes, decimal};
ghost use Rattle.std.specs.List.{flat_map};
ghost use Rattle.json.specs.Token.{begin_array as begin_array_token, end_array as end_array_token, key as key_token, null as null_token, number as number_token};
ghost use Rattle.redl_listing.specs.Changed.{attribute_tokens, change_tokens, changed_tokens, leaf_tokens, more_token, value_tokens};

use json::Writer;
use redl_formats::put_text;
use redl_properties::{Attribute, Attributes, Changed, Value};
use std::alloc::AllocError;

/// Writes the member that says which properties a revision changes. `Err` means out of memory.
pub(crate) fn put_changed(object: &mut Writer, changes: &[Changed]) -> Result<(), AllocError>
    ensures written { OnOk result (object.new.tokens ≡ object.old.tokens ++ changed_tokens changes.now) }
    ensures before { OnOk result (object.new.before ≡ object.old.before) }
{
    object.key("changed")?;
    object.begin_array()?;
    put_each_change(object, changes)?;
    object.end_array()?;
    Ok(())
}

/// Writes the member that says how many more properties a revision changes. `Err` means out of memory.
pub(crate) fn put_more(object: &mut Writer, more: Option<usize>) -> Result<(), AllocError>
    ensures written { OnOk result (object.new.tokens ≡ object.old.tokens ++ key_token (codes "changed_more") ∷ more_token more ∷ []) }
    ensures before { OnOk result (object.new.before ≡ object.old.before) }
{
    match more {
        Some(count) => put_count(object, "changed_more", count),
        None => put_null(object, "changed_more"),
    }
}

/// Writes a member that is a number. `Err` means out of memory.
pub(crate) fn put_count(object: &mut Writer, name: &str, count: usize) -> Result<(), AllocError>
    ensures written { OnOk result (object.new.tokens ≡ object.old.tokens ++ key_token name.now ∷ number_token (decimal count) ∷ []) }
    ensures before { OnOk result (object.new.before ≡ object.old.before) }
{
    object.key(name)?;
    object.u64(count as u64)
}

// Writes a member that is null. `Err` means out of memory.
fn put_null(object: &mut Writer, name: &str) -> Result<(), AllocError>
    ensures written { OnOk result (object.new.tokens ≡ object.old.tokens ++ key_token name.now ∷ null_token ∷ []) }
    ensures before { OnOk result (object.new.before ≡ object.old.before) }
{
    object.key(name)?;
    object.null()
}

// Writes an object for each property. `Err` means out of memory.
fn put_each_change(object: &mut Writer, changes: &[Changed]) -> Result<(), AllocError>
    ensures written { OnOk result (object.new.tokens ≡ object.old.tokens ++ flat_map change_tokens changes.now) }
    ensures before { OnOk result (object.new.before ≡ object.old.before) }
{
    for change in changes {
        put_change(object, change)?;
    }
    Ok(())
}

// Writes the object of a property. `Err` means out of memory.
fn put_change(object: &mut Writer, change: &Changed) -> Result<(), AllocError>
    ensures written { OnOk result (object.new.tokens ≡ object.old.tokens ++ change_tokens change.now) }
    ensures before { OnOk result (object.new.before ≡ object.old.before) }
{
    object.begin_object()?;
    put_value(object, "from", &change.from)?;
    put_text(object, "property", change.property.as_bytes())?;
    put_text(object, "said", change.said.as_bytes())?;
    put_value(object, "to", &change.to)?;
    object.end_object()?;
    Ok(())
}

// Writes a member that is a value. `Err` means out of memory.
fn put_value(object: &mut Writer, name: &str, value: &Value) -> Result<(), AllocError>
    ensures written { OnOk result (object.new.tokens ≡ object.old.tokens ++ key_token name.now ∷ value_tokens value.now) }
    ensures before { OnOk result (object.new.before ≡ object.old.before) }
{
    match value {
        Value::Absent => put_null(object, name),
        Value::Text(text) => put_text(object, name, text.as_bytes()),
        Value::Leaves(leaves) => put_leaves(object, name, leaves.list()),
    }
}

// Writes a member that is a list of elements. `Err` means out of memory.
fn put_leaves(object: &mut Writer, name: &str, leaves: &[Attributes]) -> Result<(), AllocError>
    ensures written { OnOk result (object.new.tokens ≡ object.old.tokens ++ key_token name.now ∷ begin_array_token ∷ (flat_map leaf_tokens leaves.now ++ end_array_token ∷ [])) }
    ensures before { OnOk result (object.new.before ≡ object.old.before) }
{
    object.key(name)?;
    object.begin_array()?;
    put_each_leaf(object, leaves)?;
    object.end_array()?;
    Ok(())
}

fn put_each_leaf(object: &mut Writer, leaves: &[Attributes]) -> Result<(), AllocError>
    ensures written { OnOk result (object.new.tokens ≡ object.old.tokens ++ flat_map leaf_tokens leaves.now) }
    ensures before { OnOk result (object.new.before ≡ object.old.before) }
{
    for leaf in leaves {
        put_leaf(object, leaf.list())?;
    }
    Ok(())
}

// Writes the object of an element. `Err` means out of memory.
fn put_leaf(object: &mut Writer, attributes: &[Attribute]) -> Result<(), AllocError>
    ensures written { OnOk result (object.new.tokens ≡ object.old.tokens ++ leaf_tokens attributes.now) }
    ensures before { OnOk result (object.new.before ≡ object.old.before) }
{
    object.begin_object()?;
    put_each_attribute(object, attributes)?;
    object.end_object()?;
    Ok(())
}

fn put_each_attribute(object: &mut Writer, attributes: &[Attribute]) -> Result<(), AllocError>
    ensures written { OnOk result (object.new.tokens ≡ object.old.tokens ++ flat_map attribute_tokens attributes.now) }
    ensures before { OnOk result (object.new.before ≡ object.old.before) }
{
    for attribute in attributes {
        put_attribute(object, attribute)?;
    }
    Ok(())
}

fn put_attribute(object: &mut Writer, attribute: &Attribute) -> Result<(), AllocError>
    ensures written { OnOk result (object.new.tokens ≡ object.old.tokens ++ attribute_tokens attribute.now) }
    ensures before { OnOk result (object.new.before ≡ object.old.before) }
{
    let name = str::from_utf8(attribute.name.as_bytes()).unwrap();
    put_text(object, name, attribute.value.as_bytes())
}
