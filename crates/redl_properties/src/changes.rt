//! Which properties differ.

ghost use Rattle.std.specs.Prelude.{◌≡◌, ◌≤◌, ◌++◌, IfOk, OnOk, length};
ghost use Rattle.std.specs.Option.{option_copied, option_map};
ghost use Rattle.redl_properties.specs.Changes.{attribute_change, attribute_change_at, attribute_changes, changes_between, first_changes, is_line_rule, key_of, leaf_changes, line_value, path_changes, rule_or_auto, set_changes, set_value, text_value, whole_change};

use crate::attribute::{Attribute, Leaf};
use crate::change::{Changed, Changes, push_differing};
use crate::leaves::{comes_first, last_value, leaves_at, path_comes_first, push_set};
use crate::property::Way;
use crate::said::way_at;
use crate::utf8::Utf8Text;
use crate::value::Value;
use crate::whole::{is_whole, whole_value};
use std::alloc::{AllocError, Global};

// How many changed properties are kept of one change.
const MOST: usize = 20;

// The leaves of two lists of properties: all of them, and those of each.
#[derive(Clone, Copy)]
struct Lists<'a> {
    all: &'a [Leaf],
    present: &'a [Leaf],
    former: &'a [Leaf],
}

/// The properties that differ, in the order of their paths, of which these are the leaves: first so many of the present list, and then
/// those of the former one. `Err` means out of memory.
pub fn changes_between(
    alloc: Global,
    leaves: &[Leaf],
    present: usize,
) -> Result<Vec<Changed>, AllocError>
    requires { present ≤ length leaves.now }
    ensures { IfOk result (λ changes. changes.items ≡ changes_between leaves.now present) }
{
    let lists = Lists {
        all: leaves,
        present: &leaves[..present],
        former: &leaves[present..],
    };
    let mut changes = Vec::new(alloc);
    for place in 0..leaves.len() {
        push_leaf_changes(alloc, lists, place, leaves.get(place), &mut changes)?;
    }
    Ok(changes)
}

/// The first of them, as many as are kept.
pub fn first_changes(changes: Vec<Changed>) -> Changes
    ensures { result ≡ first_changes changes.items }
{
    let mut first = changes;
    first.truncate(MOST);
    Changes::new(first)
}

// Adds what differs of the path of this leaf, where none before it has that path.
fn push_leaf_changes(
    alloc: Global,
    lists: Lists<'_>,
    place: usize,
    leaf: Option<&Leaf>,
    changes: &mut Vec<Changed>,
) -> Result<(), AllocError>
    requires { place ≤ length lists.all.now }
    ensures { OnOk result (changes.new.items ≡ changes.old.items ++ leaf_changes lists.entry.all.now lists.entry.present.now lists.entry.former.now place (option_copied leaf.entry)) }
{
    let Some(leaf) = leaf else {
        return Ok(());
    };
    let path = leaf.path.as_bytes();
    if !path_comes_first(path, lists.all, place) {
        return Ok(());
    }
    push_path_changes(alloc, path, lists, changes)
}

fn push_path_changes(
    alloc: Global,
    path: &[u8],
    lists: Lists<'_>,
    changes: &mut Vec<Changed>,
) -> Result<(), AllocError>
    ensures { OnOk result (changes.new.items ≡ changes.old.items ++ path_changes path.now lists.entry.present.now lists.entry.former.now) }
{
    let way = way_at(path);
    if is_whole(way) {
        return push_whole_change(alloc, path, way, lists, changes);
    }
    push_set_changes(alloc, path, lists, changes)
}

// Adds a property that is said whole, in this way, where it differs.
fn push_whole_change(
    alloc: Global,
    path: &[u8],
    way: Way,
    lists: Lists<'_>,
    changes: &mut Vec<Changed>,
) -> Result<(), AllocError>
    ensures { OnOk result (changes.new.items ≡ changes.old.items ++ whole_change path.now way lists.entry.present.now lists.entry.former.now) }
{
    let from = whole_value(alloc, way, leaves_at(alloc, path, lists.former)?)?;
    let to = whole_value(alloc, way, leaves_at(alloc, path, lists.present)?)?;
    push_differing(alloc, path, from, to, changes)
}

// Adds what differs of the attributes that the leaves with a path set.
fn push_set_changes(
    alloc: Global,
    path: &[u8],
    lists: Lists<'_>,
    changes: &mut Vec<Changed>,
) -> Result<(), AllocError>
    ensures { OnOk result (changes.new.items ≡ changes.old.items ++ set_changes path.now lists.entry.present.now lists.entry.former.now) }
{
    let mut set = Vec::new(alloc);
    push_set(alloc, path, lists.present, &mut set)?;
    let present = set.len();
    push_set(alloc, path, lists.former, &mut set)?;
    push_attribute_changes(alloc, path, &set, present, changes)
}

fn push_attribute_changes(
    alloc: Global,
    path: &[u8],
    set: &[Attribute],
    present: usize,
    changes: &mut Vec<Changed>,
) -> Result<(), AllocError>
    requires { present ≤ length set.now }
    ensures { OnOk result (changes.new.items ≡ changes.old.items ++ attribute_changes path.now set.now present) }
{
    let sets = Sets {
        all: set,
        present: &set[..present],
        former: &set[present..],
    };
    for place in 0..set.len() {
        push_attribute_change_at(alloc, path, sets, place, set.get(place), changes)?;
    }
    Ok(())
}

// What the leaves with one path set: all of it, and that of each list.
#[derive(Clone, Copy)]
struct Sets<'a> {
    all: &'a [Attribute],
    present: &'a [Attribute],
    former: &'a [Attribute],
}

// Adds this attribute of a path, where it differs and none before it has its name.
fn push_attribute_change_at(
    alloc: Global,
    path: &[u8],
    sets: Sets<'_>,
    place: usize,
    attribute: Option<&Attribute>,
    changes: &mut Vec<Changed>,
) -> Result<(), AllocError>
    requires { place ≤ length sets.all.now }
    ensures { OnOk result (changes.new.items ≡ changes.old.items ++ attribute_change_at path.now sets.entry.all.now sets.entry.present.now sets.entry.former.now place (option_copied attribute.entry)) }
{
    let Some(attribute) = attribute else {
        return Ok(());
    };
    let name = attribute.name.as_bytes();
    if !comes_first(name, sets.all, place) {
        return Ok(());
    }
    push_attribute_change(alloc, path, name, sets, changes)
}

fn push_attribute_change(
    alloc: Global,
    path: &[u8],
    name: &[u8],
    sets: Sets<'_>,
    changes: &mut Vec<Changed>,
) -> Result<(), AllocError>
    ensures { OnOk result (changes.new.items ≡ changes.old.items ++ attribute_change path.now name.now sets.entry.present.now sets.entry.former.now) }
{
    if is_line_rule(path, name) {
        return Ok(());
    }
    let from = set_value(alloc, path, name, sets.former)?;
    let to = set_value(alloc, path, name, sets.present)?;
    let key = key_of(alloc, path, name)?;
    push_differing(alloc, &key, from, to, changes)
}

// Whether it is the rule of a line's height, which is a part of that.
fn is_line_rule(path: &[u8], name: &[u8]) -> bool
    ensures { result ≡ is_line_rule path.now name.now }
{
    path == b"spacing".as_slice() && name == b"lineRule".as_slice()
}

// How a path with an attribute is written.
fn key_of(alloc: Global, path: &[u8], name: &[u8]) -> Result<Vec<u8>, AllocError>
    ensures { IfOk result (λ key. key.items ≡ key_of path.now name.now) }
{
    let mut key = Vec::new(alloc);
    key.extend_from_slice(path)?;
    if name == b"val".as_slice() {
        return Ok(key);
    }
    key.extend_from_slice(b"@")?;
    key.extend_from_slice(name)?;
    Ok(key)
}

// The value that these attributes give a path with this attribute.
fn set_value(
    alloc: Global,
    path: &[u8],
    name: &[u8],
    attributes: &[Attribute],
) -> Result<Value, AllocError>
    ensures { IfOk result (λ value. value ≡ set_value path.now name.now attributes.now) }
{
    if path == b"spacing".as_slice() && name == b"line".as_slice() {
        return line_value(
            alloc,
            last_value(b"line", attributes),
            last_value(b"lineRule", attributes),
        );
    }
    text_value(alloc, last_value(name, attributes))
}

fn text_value(alloc: Global, text: Option<&[u8]>) -> Result<Value, AllocError>
    ensures { IfOk result (λ value. value ≡ text_value (option_map (λ text. text.now) text.entry)) }
{
    match text {
        Some(text) => {
            let text = Utf8Text::of(alloc, text)?;
            Ok(Value::Text(text))
        }
        None => Ok(Value::Absent),
    }
}

fn line_value(
    alloc: Global,
    height: Option<&[u8]>,
    rule: Option<&[u8]>,
) -> Result<Value, AllocError>
    ensures { IfOk result (λ value. value ≡ line_value (option_map (λ text. text.now) height.entry) (option_map (λ text. text.now) rule.entry)) }
{
    let Some(height) = height else {
        return Ok(Value::Absent);
    };
    let mut text = Vec::new(alloc);
    text.extend_from_slice(height)?;
    text.extend_from_slice(b" ")?;
    text.extend_from_slice(rule_or_auto(rule))?;
    let text = Utf8Text::of(alloc, &text)?;
    Ok(Value::Text(text))
}

fn rule_or_auto(rule: Option<&[u8]>) -> &[u8]
    ensures { result.now ≡ rule_or_auto (option_map (λ text. text.now) rule.entry) }
{
    match rule {
        Some(rule) => rule,
        None => b"auto",
    }
}
