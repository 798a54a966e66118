//! Whether two changes of properties change the same.

ghost use Rattle.std.specs.Prelude.{◌≡◌, List, [], None, Some};
ghost use Rattle.std.specs.Option.{option_copied};
ghost use Rattle.redl_properties.specs.Values.{are_same, same_at, same_attribute, same_leaf_at, same_leaves, same_value};
ghost use Rattle.redl_edits.specs.Formatted.{same_change, same_changes, same_count, same_said};
ghost use Rattle.redl_edits.specs.Inside.Said.{said_in};

use redl_changed::ChangedSaid;
use redl_properties::{Attribute, Attributes, Changed, Value};

/// Whether the same properties differ, with the same former and present values.
pub(crate) fn same_said(one: Option<&ChangedSaid>, two: Option<&ChangedSaid>) -> bool
    ensures { result ≡ same_said (said_in (option_copied one.entry)) (said_in (option_copied two.entry)) }
{
    same_changes(changes_of(one), changes_of(two)) && same_count(more_of(one), more_of(two))
}

fn changes_of(said: Option<&ChangedSaid>) -> &[Changed]
    ensures { result.now ≡ (said_in (option_copied said.entry)).changes }
{
    match said {
        Some(said) => said.changes.list(),
        None => &[],
    }
}

fn more_of(said: Option<&ChangedSaid>) -> Option<usize>
    ensures { result ≡ (said_in (option_copied said.entry)).more }
{
    match said {
        Some(said) => said.more,
        None => Some(0),
    }
}

fn same_count(one: Option<usize>, two: Option<usize>) -> bool
    ensures { result ≡ same_count one two }
{
    match (one, two) {
        (Some(one), Some(two)) => one == two,
        _ => false,
    }
}

fn same_changes(one: &[Changed], two: &[Changed]) -> bool
    ensures { result ≡ same_changes one.now two.now }
{
    if one.len() != two.len() {
        return false;
    }
    for place in 0..one.len() {
        if !same_change(&one[place], &two[place]) {
            return false;
        }
    }
    true
}

fn same_change(one: &Changed, two: &Changed) -> bool
    ensures { result ≡ same_change one.now two.now }
{
    one.property.as_bytes() == two.property.as_bytes()
        && same_value(&one.from, &two.from)
        && same_value(&one.to, &two.to)
}

fn same_value(one: &Value, two: &Value) -> bool
    ensures { result ≡ same_value one.now two.now }
{
    match (one, two) {
        (Value::Absent, Value::Absent) => true,
        (Value::Text(one), Value::Text(two)) => one.as_bytes() == two.as_bytes(),
        (Value::Leaves(one), Value::Leaves(two)) => same_leaves(one.list(), two.list()),
        _ => false,
    }
}

fn same_leaves(one: &[Attributes], two: &[Attributes]) -> bool
    ensures { result ≡ same_leaves one.now two.now }
{
    let mut same = one.len() == two.len();
    for place in 0..one.len() {
        same = same && same_leaf_at(one.get(place), two.get(place));
    }
    same
}

fn same_leaf_at(one: Option<&Attributes>, two: Option<&Attributes>) -> bool
    ensures { result ≡ same_leaf_at (option_copied one.entry) (option_copied two.entry) }
{
    match (one, two) {
        (Some(one), Some(two)) => are_same(one.list(), two.list()),
        _ => false,
    }
}

fn are_same(one: &[Attribute], two: &[Attribute]) -> bool
    ensures { result ≡ are_same one.now two.now }
{
    let mut same = one.len() == two.len();
    for place in 0..one.len() {
        same = same && same_at(one.get(place), two.get(place));
    }
    same
}

fn same_at(one: Option<&Attribute>, two: Option<&Attribute>) -> bool
    ensures { result ≡ same_at (option_copied one.entry) (option_copied two.entry) }
{
    match (one, two) {
        (Some(one), Some(two)) => same_attribute(one, two),
        _ => false,
    }
}

fn same_attribute(one: &Attribute, two: &Attribute) -> bool
    ensures { result ≡ same_attribute one.now two.now }
{
    one.name.as_bytes() == two.name.as_bytes() && one.value.as_bytes() == two.value.as_bytes()
}
