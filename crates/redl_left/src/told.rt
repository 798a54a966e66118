//! What is told of an element.

ghost use Rattle.std.specs.Prelude.{◌≡◌, ◌++◌, false, true, codes, IfOk, IsTrue, OnOk, unwrap_or};
ghost use Rattle.redl_reading.specs.Lists.{lacks};
ghost use Rattle.redl_shown.specs.Shown.{shown};
ghost use Rattle.redl_tree.specs.Model.Kids.{has_element};
ghost use Rattle.redl_tree.specs.Model.Nodes.{Nodes, no_nodes, in_front};
ghost use Rattle.redl_tree.specs.Model.View.{nodes_of, item_of};
ghost use Rattle.redl_stamp.specs.Attribute.{attribute_value};
ghost use Rattle.redl_left.specs.Names.{name_text};
ghost use Rattle.redl_left.specs.Finds.{value_of, value_or_nothing, by_whom, front_shown, shown_alone, inner_shown, inner_of, after_colon, lead_from};

use crate::find::Asked;
use crate::name::Name;
use crate::row::Value;
use redl_io::{MemSink, Text};
use redl_pairs::lacks_pairs;
use redl_relations::target_name;
use redl_shown::put_shown;
use redl_stamp::attribute;
use redl_tree::{Node, Space, has_elements};
use std::alloc::{AllocError, Global};

/// A value of a tag's tail, or nothing. `Err` means out of memory.
pub(crate) fn attribute_or_nothing(
    alloc: Global,
    tail: &[u8],
    name: &[u8],
) -> Result<Text, AllocError>
    ensures { IfOk result (λ text. text ≡ value_or_nothing (attribute_value tail.now name.now)) }
{
    match attribute(alloc, tail, name)? {
        Some(value) => Ok(value),
        None => Text::copy_of(alloc, b""),
    }
}

/// Whether it is plain by two bytes of its name that a tail has no author. Its first two are in `rsidRDefault`.
pub(crate) fn lacks_author(tail: &[u8]) -> bool
    ensures { IsTrue result → lacks (codes "author") tail.now ≡ true }
{
    lacks_pairs(tail, (b't', b'h'), (b't', b'h'))
}

// Who made it, or nothing. `Err` means out of memory.
fn author(alloc: Global, tail: &[u8]) -> Result<Text, AllocError>
    ensures { IfOk result (λ text. text ≡ value_or_nothing (attribute_value tail.now (codes "author"))) }
{
    if lacks_author(tail) {
        return Text::copy_of(alloc, b"");
    }
    attribute_or_nothing(alloc, tail, b"author")
}

// The local name, and who made it. `Err` means out of memory.
fn made(alloc: Global, local: &[u8], tail: &[u8]) -> Result<Text, AllocError>
    ensures { IfOk result (λ text. text ≡ local.now ++ by_whom (attribute_value tail.now (codes "author"))) }
{
    let mut text = Vec::from_slice(alloc, local)?;
    if let Some(author) = attribute(alloc, tail, b"author")? {
        text.push(b' ')?;
        text.extend_from_slice(author.as_bytes())?;
    }
    Text::copy_of(alloc, &text)
}

/// What bytes show. `Err` means out of memory.
pub(crate) fn shown(alloc: Global, bytes: &[u8]) -> Result<Text, AllocError>
    ensures { IfOk result (λ text. text ≡ shown bytes.now) }
{
    let mut sink = MemSink::new(alloc, bytes.len(), Vec::new(alloc))?;
    match put_shown(bytes, &mut sink) {
        Ok(()) => Text::copy_of(alloc, sink.bytes()),
        Err(_) => Err(AllocError),
    }
}

// What an element shows that holds no other one. `Err` means out of memory.
fn shown_alone(alloc: Global, space: Space, kids: &[Node]) -> Result<Text, AllocError>
    ensures { IfOk result (λ text. text ≡ shown_alone space (nodes_of kids.now)) }
{
    if space == Space::W || has_elements(kids) {
        return Text::copy_of(alloc, b"");
    }
    match kids {
        [node, ..] => shown_node(alloc, node),
        [] => Text::copy_of(alloc, b""),
    }
}

// What a node shows that is no element. `Err` means out of memory.
fn shown_node(alloc: Global, node: &Node) -> Result<Text, AllocError>
    requires { has_element (in_front (item_of node.now) no_nodes) ≡ false }
    ensures { (rest : Nodes) → IfOk result (λ text. text ≡ front_shown (in_front (item_of node.now) rest)) }
{
    match node {
        Node::Bytes(bytes) => shown(alloc, bytes),
        Node::Elem(_) => Text::copy_of(alloc, b""),
        Node::Plain(_) => Text::copy_of(alloc, b""),
    }
}

// What a node shows that is an element, and holds no other one. `None` exactly where it is bytes. `Err` means out of memory.
fn element_shown(alloc: Global, node: &Node) -> Result<Option<Text>, AllocError>
    ensures { (rest : Nodes) → IfOk result (λ text. unwrap_or text (inner_shown rest) ≡ inner_shown (in_front (item_of node.now) rest)) }
{
    match node {
        Node::Elem(elem) => Ok(Some(shown_alone(alloc, elem.space(), elem.kids())?)),
        Node::Plain(_) => Ok(Some(Text::copy_of(alloc, b"")?)),
        Node::Bytes(_) => Ok(None),
    }
}

// What the first element among kids shows. `Err` means out of memory.
fn inner_shown(alloc: Global, kids: &[Node]) -> Result<Text, AllocError>
    ensures { IfOk result (λ text. text ≡ inner_shown (nodes_of kids.now)) }
{
    for node in kids {
        if let Some(text) = element_shown(alloc, node)? {
            return Ok(text);
        }
    }
    Text::copy_of(alloc, b"")
}

// The same of an element in this namespace; of WordprocessingML nothing is told here. `Err` means out of memory.
fn inner_of(alloc: Global, space: Space, kids: &[Node]) -> Result<Text, AllocError>
    ensures { IfOk result (λ text. text ≡ inner_of space (nodes_of kids.now)) }
{
    match space {
        Space::W => Text::copy_of(alloc, b""),
        _ => inner_shown(alloc, kids),
    }
}

// Adds a text after a colon, unless it is empty. `Err` means out of memory.
fn push_after_colon(front: &mut Vec<u8>, text: &[u8]) -> Result<(), AllocError>
    ensures { OnOk result (front.new.items ≡ front.old.items ++ after_colon text.now) }
{
    if text.is_empty() {
        return Ok(());
    }
    front.extend_from_slice(b": ")?;
    front.extend_from_slice(text)?;
    Ok(())
}

// An attribute, and what the first element among the kids shows. `Err` means out of memory.
fn held(alloc: Global, name: Name, asked: &Asked<'_>, kids: &[Node]) -> Result<Text, AllocError>
    ensures { IfOk result (λ text. text ≡ value_or_nothing (attribute_value asked.now.tail.now (name_text name)) ++ after_colon (inner_of asked.now.space (nodes_of kids.now))) }
{
    let called = attribute_or_nothing(alloc, asked.tail, name.text())?;
    let inner = inner_of(alloc, asked.space, kids)?;
    let mut text = Vec::from_slice(alloc, called.as_bytes())?;
    push_after_colon(&mut text, inner.as_bytes())?;
    Text::copy_of(alloc, &text)
}

// The name of the part to which an attribute leads, of a relationship that stands in this part. `Err` means out of memory.
fn lead(alloc: Global, part: &[u8], name: Name, tail: &[u8]) -> Result<Text, AllocError>
    ensures { IfOk result (λ text. text ≡ lead_from part.now (value_or_nothing (attribute_value tail.now (name_text name)))) }
{
    let target = attribute_or_nothing(alloc, tail, name.text())?;
    let folder = target_name(alloc, part, b".")?;
    let name = target_name(alloc, &folder, target.as_bytes())?;
    Text::copy_of(alloc, &name)
}

/// What a row tells of an element with these kids in this part. `Err` means out of memory.
pub(crate) fn value_of(
    alloc: Global,
    part: &[u8],
    value: &Value,
    asked: &Asked<'_>,
    kids: &[Node],
) -> Result<Text, AllocError>
    ensures { IfOk result (λ text. text ≡ value_of part.now value.now asked.now.space asked.now.local.now asked.now.tail.now (nodes_of kids.now)) }
{
    match value {
        Value::Nothing => Text::copy_of(alloc, b""),
        Value::Attribute(name) => attribute_or_nothing(alloc, asked.tail, name.text()),
        Value::Author => author(alloc, asked.tail),
        Value::Made => made(alloc, asked.local, asked.tail),
        Value::Shown => shown_alone(alloc, asked.space, kids),
        Value::Held(name) => held(alloc, *name, asked, kids),
        Value::Lead(name) => lead(alloc, part, *name, asked.tail),
    }
}
