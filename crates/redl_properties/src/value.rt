//! Values of properties.

ghost use Rattle.std.specs.Prelude.{◌≡◌, IfOk};
ghost use Rattle.std.specs.Option.{option_copied};
ghost use Rattle.redl_properties.specs.Values.{are_same, same_at, same_attribute, same_leaf_at, same_leaves, same_value};

use crate::attribute::{Attribute, Attributes, Leaves};
use crate::utf8::Utf8Text;
use std::alloc::{AllocError, Global};

/// The value of a property in a list of properties.
#[derive(Drop)]
pub enum Value {
    /// The list doesn't have the property.
    Absent,
    /// A text: the value of an attribute, or `on` or `off`.
    Text(Utf8Text),
    /// Elements, of each its attributes.
    Leaves(Leaves),
}

impl Value {
    /// An equal one. `Err` means out of memory.
    pub fn copy(&self, alloc: Global) -> Result<Value, AllocError>
        ensures { IfOk result (λ copy. copy ≡ self.now) }
    {
        match self {
            Value::Absent => Ok(Value::Absent),
            Value::Text(text) => {
                let copy = text.copy(alloc)?;
                Ok(Value::Text(copy))
            }
            Value::Leaves(leaves) => {
                let copy = leaves.copy(alloc)?;
                Ok(Value::Leaves(copy))
            }
        }
    }

    /// Whether two are the same.
    pub(crate) fn is_same(&self, other: &Value) -> bool
        ensures { result ≡ same_value self.now other.now }
    {
        match (self, other) {
            (Value::Absent, Value::Absent) => true,
            (Value::Text(one), Value::Text(two)) => one.as_bytes() == two.as_bytes(),
            (Value::Leaves(one), Value::Leaves(two)) => same_leaves(one.list(), two.list()),
            _ => false,
        }
    }
}

fn same_leaves(one: &[Attributes], two: &[Attributes]) -> bool
    ensures { result ≡ same_leaves one.now two.now }
{
    let mut same = one.len() == two.len();
    for place in 0..one.len() {
        same = same && same_leaf_at(one.get(place), two.get(place));
    }
    same
}

fn same_leaf_at(one: Option<&Attributes>, two: Option<&Attributes>) -> bool
    ensures { result ≡ same_leaf_at (option_copied one.entry) (option_copied two.entry) }
{
    match (one, two) {
        (Some(one), Some(two)) => are_same(one.list(), two.list()),
        _ => false,
    }
}

fn are_same(one: &[Attribute], two: &[Attribute]) -> bool
    ensures { result ≡ are_same one.now two.now }
{
    let mut same = one.len() == two.len();
    for place in 0..one.len() {
        same = same && same_at(one.get(place), two.get(place));
    }
    same
}

fn same_at(one: Option<&Attribute>, two: Option<&Attribute>) -> bool
    ensures { result ≡ same_at (option_copied one.entry) (option_copied two.entry) }
{
    match (one, two) {
        (Some(one), Some(two)) => same_attribute(one, two),
        _ => false,
    }
}

fn same_attribute(one: &Attribute, two: &Attribute) -> bool
    ensures { result ≡ same_attribute one.now two.now }
{
    one.name.as_bytes() == two.name.as_bytes() && one.value.as_bytes() == two.value.as_bytes()
}
