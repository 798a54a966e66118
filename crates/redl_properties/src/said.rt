//! Values of properties in words.

ghost use Rattle.std.specs.Prelude.{◌≡◌, ◌++◌, OnOk};
ghost use Rattle.std.specs.Option.{option_copied};
ghost use Rattle.redl_properties.specs.Said.{attribute_said, between, border_said, colour_said, common, first_at, height_said, leaf_said, leaves_said, level_said, line_by, line_said, lines_said, list_said, name_or, part_said, parts_said, property_at, ruled, said_change, shade_said, switched, tab_said, text_said, value_or, value_said, way_at, way_or_text, width_said};

use crate::amount::{natural, push_amount, push_decimal, push_measured};
use crate::attribute::{Attribute, Attributes};
use crate::leaves::last_value;
use crate::property::{PROPERTIES, Property, Way};
use crate::value::Value;
use crate::whole::{is_off, switch_text};
use redl_reading::field;
use std::alloc::AllocError;

/// The property with this path, if it has a name.
#[tactic(auto, unfolding(crate::specs::Said::property_at))]
pub(crate) fn property_at(path: &[u8]) -> Option<Property>
    ensures { result ≡ property_at path.now }
{
    first_at(&PROPERTIES, path).copied()
}

// The first of these properties that has this path.
fn first_at<'a>(properties: &'a [Property], path: &[u8]) -> Option<&'a Property>
    ensures { option_copied result ≡ first_at path.now properties.now }
{
    properties
        .iter()
        .find(|property| property.path().as_bytes() == path)
}

/// How the values of the property with this path are said, if it has a name, and else as they are written.
pub(crate) fn way_at(path: &[u8]) -> Way
    ensures { result ≡ way_at path.now }
{
    way_or_text(property_at(path))
}

fn way_or_text(property: Option<Property>) -> Way
    ensures { result ≡ way_or_text property }
{
    match property {
        Some(property) => property.way(),
        None => Way::Text,
    }
}

fn name_or<'a>(path: &'a [u8], property: Option<Property>) -> &'a [u8]
    ensures { result.now ≡ name_or path.now property }
{
    match property {
        Some(property) => property.name().as_bytes(),
        None => path,
    }
}

/// Adds the name of a property and its former and present value in words. `Err` means out of memory.
pub(crate) fn push_change(
    line: &mut Vec<u8>,
    property: &[u8],
    from: &Value,
    to: &Value,
) -> Result<(), AllocError>
    ensures { OnOk result (line.new.items ≡ line.old.items ++ said_change property.now from.now to.now) }
{
    let named = property_at(property);
    let way = way_or_text(named);
    line.extend_from_slice(name_or(property, named))?;
    line.extend_from_slice(b": ")?;
    push_value(line, way, from)?;
    line.extend_from_slice(" \u{2192} ".as_bytes())?;
    push_value(line, way, to)
}

fn push_value(line: &mut Vec<u8>, way: Way, value: &Value) -> Result<(), AllocError>
    ensures { OnOk result (line.new.items ≡ line.old.items ++ value_said way value.now) }
{
    match value {
        Value::Absent => line.extend_from_slice(b"not set"),
        Value::Text(text) => push_text(line, way, text.as_bytes()),
        Value::Leaves(leaves) => push_leaves(line, way, leaves.list()),
    }
}

// ---- texts

fn push_text(line: &mut Vec<u8>, way: Way, text: &[u8]) -> Result<(), AllocError>
    ensures { OnOk result (line.new.items ≡ line.old.items ++ text_said way text.now) }
{
    match way {
        Way::Half => push_measured(line, 2, " pt", text),
        Way::Twentieth => push_measured(line, 20, " pt", text),
        Way::Percent => push_measured(line, 1, "%", text),
        Way::Hundredth => push_measured(line, 100, "", text),
        Way::Colour => line.extend_from_slice(colour(text)),
        Way::List => push_list(line, text),
        Way::Level => push_level(line, text),
        Way::Line => push_line(line, text),
        Way::Switch => line.extend_from_slice(switched(text)),
        Way::Text => line.extend_from_slice(common(text)),
        _ => line.extend_from_slice(text),
    }
}

fn colour<'a>(text: &'a [u8]) -> &'a [u8]
    ensures { result.now ≡ colour_said text.now }
{
    if text == b"auto".as_slice() {
        b"automatic"
    } else if text == b"000000".as_slice() {
        b"black"
    } else if text == b"FFFFFF".as_slice() {
        b"white"
    } else {
        text
    }
}

fn switched(text: &[u8]) -> &'static [u8]
    ensures { result.now ≡ switched text.now }
{
    switch_text(is_off(text)).as_bytes()
}

// A word of the format, as people say it.
fn common<'a>(text: &'a [u8]) -> &'a [u8]
    ensures { result.now ≡ common text.now }
{
    if text == b"both".as_slice() {
        b"justified"
    } else if text == b"nextPage".as_slice() {
        b"next page"
    } else if text == b"evenPage".as_slice() {
        b"even page"
    } else if text == b"oddPage".as_slice() {
        b"odd page"
    } else if text == b"nextColumn".as_slice() {
        b"next column"
    } else {
        text
    }
}

fn push_list(line: &mut Vec<u8>, text: &[u8]) -> Result<(), AllocError>
    ensures { OnOk result (line.new.items ≡ line.old.items ++ list_said text.now) }
{
    if text == b"0".as_slice() {
        return line.extend_from_slice(b"none");
    }
    line.extend_from_slice(b"list ")?;
    line.extend_from_slice(text)
}

fn push_level(line: &mut Vec<u8>, text: &[u8]) -> Result<(), AllocError>
    ensures { OnOk result (line.new.items ≡ line.old.items ++ level_said text.now) }
{
    match natural(text) {
        Some(9) => line.extend_from_slice(b"body text"),
        Some(level) => push_decimal(line, level as u64 + 1),
        None => line.extend_from_slice(text),
    }
}

fn push_line(line: &mut Vec<u8>, text: &[u8]) -> Result<(), AllocError>
    ensures { OnOk result (line.new.items ≡ line.old.items ++ line_said text.now) }
{
    let Some((height, rule)) = field(text, b' ') else {
        return line.extend_from_slice(text);
    };
    match natural(height) {
        Some(height) => push_line_by(line, height, rule, text),
        None => line.extend_from_slice(text),
    }
}

fn push_line_by(line: &mut Vec<u8>, height: u32, rule: &[u8], text: &[u8]) -> Result<(), AllocError>
    ensures { OnOk result (line.new.items ≡ line.old.items ++ line_by height rule.now text.now) }
{
    if rule == b"auto".as_slice() {
        return push_lines(line, height);
    }
    if rule == b"exact".as_slice() {
        line.extend_from_slice(b"exactly ")?;
        push_amount(line, 20, height)?;
        return line.extend_from_slice(b" pt");
    }
    if rule == b"atLeast".as_slice() {
        line.extend_from_slice(b"at least ")?;
        push_amount(line, 20, height)?;
        return line.extend_from_slice(b" pt");
    }
    line.extend_from_slice(text)
}

fn push_lines(line: &mut Vec<u8>, height: u32) -> Result<(), AllocError>
    ensures { OnOk result (line.new.items ≡ line.old.items ++ lines_said height) }
{
    match height {
        240 => line.extend_from_slice(b"single"),
        480 => line.extend_from_slice(b"double"),
        _ => {
            push_amount(line, 240, height)?;
            line.extend_from_slice(b" lines")
        }
    }
}

// ---- elements

fn push_leaves(line: &mut Vec<u8>, way: Way, leaves: &[Attributes]) -> Result<(), AllocError>
    ensures { OnOk result (line.new.items ≡ line.old.items ++ leaves_said way leaves.now) }
{
    for place in 0..leaves.len() {
        push_between(line, place, b", ")?;
        push_leaf(line, way, leaves[place].list())?;
    }
    Ok(())
}

pub(crate) fn push_between(line: &mut Vec<u8>, place: usize, sign: &[u8]) -> Result<(), AllocError>
    ensures { OnOk result (line.new.items ≡ line.old.items ++ between place sign.now) }
{
    if place == 0 {
        return Ok(());
    }
    line.extend_from_slice(sign)
}

fn push_leaf(line: &mut Vec<u8>, way: Way, attributes: &[Attribute]) -> Result<(), AllocError>
    ensures { OnOk result (line.new.items ≡ line.old.items ++ leaf_said way attributes.now) }
{
    match way {
        Way::Width => push_width(line, attributes),
        Way::Merge if attributes.is_empty() => line.extend_from_slice(b"continue"),
        _ => push_parts(line, way, attributes),
    }
}

fn push_parts(line: &mut Vec<u8>, way: Way, attributes: &[Attribute]) -> Result<(), AllocError>
    ensures { OnOk result (line.new.items ≡ line.old.items ++ parts_said way attributes.now) }
{
    for place in 0..attributes.len() {
        push_between(line, place, b" ")?;
        push_part(line, way, &attributes[place])?;
    }
    Ok(())
}

fn push_part(line: &mut Vec<u8>, way: Way, attribute: &Attribute) -> Result<(), AllocError>
    ensures { OnOk result (line.new.items ≡ line.old.items ++ part_said way attribute.now) }
{
    let name = attribute.name.as_bytes();
    let value = attribute.value.as_bytes();
    match way {
        Way::Border => push_border(line, name, value),
        Way::Shade => push_shade(line, name, value),
        Way::Tabs => push_tab(line, name, value),
        Way::Height => push_height(line, name, value),
        _ => push_attribute(line, name, value),
    }
}

fn push_attribute(line: &mut Vec<u8>, name: &[u8], value: &[u8]) -> Result<(), AllocError>
    ensures { OnOk result (line.new.items ≡ line.old.items ++ attribute_said name.now value.now) }
{
    if name == b"val".as_slice() {
        return line.extend_from_slice(value);
    }
    line.extend_from_slice(name)?;
    line.extend_from_slice(b" ")?;
    line.extend_from_slice(value)
}

fn push_border(line: &mut Vec<u8>, name: &[u8], value: &[u8]) -> Result<(), AllocError>
    ensures { OnOk result (line.new.items ≡ line.old.items ++ border_said name.now value.now) }
{
    if name == b"sz".as_slice() {
        return push_measured(line, 8, " pt", value);
    }
    if name == b"color".as_slice() {
        return line.extend_from_slice(colour(value));
    }
    push_attribute(line, name, value)
}

fn push_shade(line: &mut Vec<u8>, name: &[u8], value: &[u8]) -> Result<(), AllocError>
    ensures { OnOk result (line.new.items ≡ line.old.items ++ shade_said name.now value.now) }
{
    if name == b"fill".as_slice() {
        line.extend_from_slice(b"on ")?;
        return line.extend_from_slice(colour(value));
    }
    if name == b"color".as_slice() {
        return line.extend_from_slice(colour(value));
    }
    push_attribute(line, name, value)
}

fn push_tab(line: &mut Vec<u8>, name: &[u8], value: &[u8]) -> Result<(), AllocError>
    ensures { OnOk result (line.new.items ≡ line.old.items ++ tab_said name.now value.now) }
{
    if name == b"pos".as_slice() {
        line.extend_from_slice(b"at ")?;
        return push_measured(line, 20, " pt", value);
    }
    push_attribute(line, name, value)
}

fn push_height(line: &mut Vec<u8>, name: &[u8], value: &[u8]) -> Result<(), AllocError>
    ensures { OnOk result (line.new.items ≡ line.old.items ++ height_said name.now value.now) }
{
    if name == b"val".as_slice() {
        return push_measured(line, 20, " pt", value);
    }
    if name == b"hRule".as_slice() {
        return line.extend_from_slice(ruled(value));
    }
    push_attribute(line, name, value)
}

fn ruled<'a>(rule: &'a [u8]) -> &'a [u8]
    ensures { result.now ≡ ruled rule.now }
{
    if rule == b"exact".as_slice() {
        b"exactly"
    } else if rule == b"atLeast".as_slice() {
        b"at least"
    } else {
        rule
    }
}

fn push_width(line: &mut Vec<u8>, attributes: &[Attribute]) -> Result<(), AllocError>
    ensures { OnOk result (line.new.items ≡ line.old.items ++ width_said attributes.now) }
{
    let width = value_or(b"w", attributes, b"0");
    let sort = value_or(b"type", attributes, b"dxa");
    if sort == b"auto".as_slice() {
        return line.extend_from_slice(b"automatic");
    }
    if sort == b"nil".as_slice() {
        return line.extend_from_slice(b"none");
    }
    if sort == b"pct".as_slice() {
        return push_measured(line, 50, "%", width);
    }
    push_measured(line, 20, " pt", width)
}

fn value_or<'a>(name: &[u8], attributes: &'a [Attribute], other: &'a [u8]) -> &'a [u8]
    ensures { result.now ≡ value_or name.now attributes.now other.now }
{
    match last_value(name, attributes) {
        Some(value) => value,
        None => other,
    }
}
