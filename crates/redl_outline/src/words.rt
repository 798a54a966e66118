//! The words of an outline, and what they say.

use std::alloc::{AllocError, Global};

/// A node without what it holds.
#[derive(Drop)]
pub(crate) enum Item {
    /// The start tag of an element.
    Start(Start),
    /// A text between tags.
    Bytes(String),
}

/// A start tag.
#[derive(Drop)]
pub(crate) struct Start {
    /// All between its `<` and its `>`.
    pub(crate) text: String,
    /// How many bytes its prefix has.
    pub(crate) prefix: usize,
    /// How many bytes its name has, with prefix and colon.
    pub(crate) name: usize,
}

/// The node that a word without its dots says.
pub(crate) fn item_of(alloc: Global, word: &str, own: &[(&str, &str)]) -> Result<Item, AllocError> {
    match word.strip_prefix('(') {
        Some(rest) => {
            let bytes = rest.strip_suffix(')').unwrap_or(rest);
            let text = meant(bytes, own).unwrap_or(bytes);
            Ok(Item::Bytes(String::from_str(alloc, text)?))
        }
        None => Ok(Item::Start(start_of(alloc, word, own)?)),
    }
}

// The text beside a test's own word.
fn meant<'a>(word: &str, own: &[(&str, &'a str)]) -> Option<&'a str> {
    for (short, text) in own {
        if *short == word {
            return Some(*text);
        }
    }
    None
}

fn start_of(alloc: Global, word: &str, own: &[(&str, &str)]) -> Result<Start, AllocError> {
    let (name, attributes) = match word.split_once('/') {
        Some((name, attributes)) => (name, Some(attributes)),
        None => (word, None),
    };
    let (prefix, local) = name_of(meant(name, own).unwrap_or(name));
    let mut text = format!(in alloc; "{prefix}:{local}")?;
    let name = text.len();
    if let Some(attributes) = attributes {
        push_attributes(alloc, &mut text, attributes, own)?;
    }
    Ok(Start {
        text,
        prefix: prefix.len(),
        name,
    })
}

// The prefix and the local name in a name.
fn name_of(name: &str) -> (&str, &str) {
    match name.split_once('-') {
        Some((prefix, local)) => (prefix, local),
        None => ("w", name),
    }
}

fn push_attributes(
    alloc: Global,
    text: &mut String,
    attributes: &str,
    own: &[(&str, &str)],
) -> Result<(), AllocError> {
    for attribute in attributes.split('/') {
        match meant(attribute, own) {
            Some(meant) => text.push_str(meant)?,
            None => push_attribute(alloc, text, attribute)?,
        }
    }
    Ok(())
}

fn push_attribute(alloc: Global, text: &mut String, attribute: &str) -> Result<(), AllocError> {
    let (name, value) = match attribute.split_once('=') {
        Some((name, value)) => (name, value),
        None => (attribute, ""),
    };
    let (prefix, local) = name_of(name);
    let attribute = format!(in alloc; " {prefix}:{local}='{value}'")?;
    text.push_str(attribute.as_str())
}
