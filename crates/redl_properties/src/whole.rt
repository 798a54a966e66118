//! The values of properties that are said whole.

ghost use Rattle.std.specs.Prelude.{◌≡◌, IfOk, Some, codes};
ghost use Rattle.std.specs.Option.{option_copied};
ghost use Rattle.redl_properties.specs.Wholes.{is_off, is_whole, leaf_value, many_value, switch_text, toggle_value, whole_value};
ghost use Rattle.redl_properties.specs.Leaves.{last_value};

use crate::attribute::{Attribute, Attributes, Leaves};
use crate::leaves::last_value;
use crate::property::Way;
use crate::utf8::Utf8Text;
use crate::value::Value;
use std::alloc::{AllocError, Global};

/// Whether a property whose values are said so is said whole.
pub(crate) fn is_whole(way: Way) -> bool
    ensures { result ≡ is_whole way }
{
    match way {
        Way::Toggle
        | Way::Border
        | Way::Shade
        | Way::Tabs
        | Way::Width
        | Way::Height
        | Way::Merge
        | Way::Flags
        | Way::Columns => true,
        _ => false,
    }
}

/// The value of a property that is said whole, given the attributes of its elements. `Err` means out of memory.
pub(crate) fn whole_value(
    alloc: Global,
    way: Way,
    found: Vec<Attributes>,
) -> Result<Value, AllocError>
    ensures { IfOk result (λ value. value ≡ whole_value way found.items) }
{
    match way {
        Way::Toggle => toggle_value(alloc, found.last()),
        Way::Tabs | Way::Columns => Ok(many_value(found)),
        _ => leaf_value(alloc, found.last()),
    }
}

fn many_value(found: Vec<Attributes>) -> Value
    ensures { result ≡ many_value found.items }
{
    if found.is_empty() {
        return Value::Absent;
    }
    Value::Leaves(Leaves::new(found))
}

fn leaf_value(alloc: Global, leaf: Option<&Attributes>) -> Result<Value, AllocError>
    ensures { IfOk result (λ value. value ≡ leaf_value (option_copied leaf.entry)) }
{
    match leaf {
        Some(leaf) => {
            let mut list = Vec::new(alloc);
            list.push(leaf.copy(alloc)?)?;
            Ok(Value::Leaves(Leaves::new(list)))
        }
        None => Ok(Value::Absent),
    }
}

fn toggle_value(alloc: Global, leaf: Option<&Attributes>) -> Result<Value, AllocError>
    ensures { IfOk result (λ value. value ≡ toggle_value (option_copied leaf.entry)) }
{
    match leaf {
        Some(leaf) => {
            let text = Utf8Text::of_str(alloc, switch_text(is_off_by(leaf.list())))?;
            Ok(Value::Text(text))
        }
        None => Ok(Value::Absent),
    }
}

/// What a switch is said to be.
pub(crate) fn switch_text(is_off: bool) -> &'static str
    ensures { result.now ≡ switch_text is_off }
{
    if is_off { "off" } else { "on" }
}

// Whether an element with these attributes switches its property off.
fn is_off_by(attributes: &[Attribute]) -> bool
    ensures { result ≡ is_off (last_value (codes "val") attributes.now) }
{
    match last_value(b"val", attributes) {
        Some(value) => is_off(value),
        None => false,
    }
}

/// Whether a value switches a property off.
pub(crate) fn is_off(value: &[u8]) -> bool
    ensures { result ≡ is_off (Some value.now) }
{
    value == b"0".as_slice() || value == b"false".as_slice() || value == b"off".as_slice()
}
