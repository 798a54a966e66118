//! The declarations among the attributes of a start tag, and whether the prefixes of its attributes may be used.

ghost use Rattle.std.specs.Prelude.{◌≡◌, ◌||◌, [], codes, map, true, IfOk};
ghost use Rattle.std.specs.List.{list_all};
ghost use Rattle.redl_markup.specs.Reading.{Finds};
ghost use Rattle.redl_reading.specs.Steps.{Gives};
ghost use Rattle.redl_grammar.specs.References.{is_there};
ghost use Rattle.redl_markup.specs.Decoding.{decoded_value};
ghost use Rattle.redl_markup.specs.Attributes.{attributes_of};
ghost use Rattle.redl_markup.specs.Views.{name_view, attribute_view};
ghost use Rattle.redl_xml.specs.Scopes.{space_named, is_xml_namespace, is_xml_prefix, is_xmlns, declared_prefix, may_declare, is_known, is_known_attribute, is_element_prefix, is_plain_name};
ghost use Rattle.redl_xml.specs.Inside.Elements.{with_attribute, with_attributes, known, entered, declared_in};

use crate::spaces::Spaces;
use redl_markup::{Attribute, MarkupError, Name, StartTag, decode_value, next_attribute};
use redl_tree::Space;
use std::alloc::{AllocError, Global};

// The space of the namespace with this name.
#[tactic(auto, unfolding(crate::specs::Scopes::space_named))]
fn space_named(name: &[u8]) -> Space
    ensures { result ≡ space_named name.now }
{
    if name == b"http://schemas.openxmlformats.org/wordprocessingml/2006/main".as_slice()
        || name == b"http://purl.oclc.org/ooxml/wordprocessingml/main".as_slice()
    {
        return Space::W;
    }
    if name == b"http://schemas.openxmlformats.org/officeDocument/2006/math".as_slice() {
        return Space::M;
    }
    if name == b"http://schemas.microsoft.com/office/2006/xmlPackage".as_slice() {
        return Space::Pkg;
    }
    Space::Other
}

#[tactic(auto, unfolding(crate::specs::Scopes::is_xml_namespace))]
fn is_xml_namespace(name: &[u8]) -> bool
    ensures { result ≡ is_xml_namespace name.now }
{
    name == b"http://www.w3.org/XML/1998/namespace".as_slice()
}

#[tactic(auto, unfolding(crate::specs::Scopes::is_xml_prefix))]
fn is_xml_prefix(prefix: &[u8]) -> bool
    ensures { result ≡ is_xml_prefix prefix.now }
{
    prefix == b"xml".as_slice()
}

#[tactic(auto, unfolding(crate::specs::Scopes::is_xmlns))]
fn is_xmlns(word: &[u8]) -> bool
    ensures { result ≡ is_xmlns word.now }
{
    word == b"xmlns".as_slice()
}

// The prefix that an attribute with this name declares, which is empty for `xmlns`.
fn declared_prefix<'a>(name: Name<'a>) -> Option<&'a [u8]>
    ensures { Gives (λ prefix. prefix.now) result (declared_prefix (name_view name.entry)) }
{
    if is_xmlns(name.prefix) {
        return Some(name.local);
    }
    if name.prefix.is_empty() && is_xmlns(name.local) {
        return Some(name.prefix);
    }
    None
}

// Whether a prefix may be declared with this value, given as written and as decoded.
#[tactic(auto, unfolding(crate::specs::Scopes::may_declare))]
fn may_declare(prefix: &[u8], value: &[u8], decoded: &[u8]) -> bool
    requires { decoded.now ≡ decoded_value value.now }
    ensures { result ≡ may_declare prefix.now value.now }
{
    if prefix.is_empty() {
        return true;
    }
    !is_xmlns(prefix) && !value.is_empty() && (!is_xml_prefix(prefix) || is_xml_namespace(decoded))
}

#[tactic(auto, unfolding(crate::specs::Scopes::is_known))]
fn is_known<'a>(scopes: &Spaces<'a>, prefix: &'a [u8]) -> bool
    ensures { result ≡ is_known scopes.now prefix.now }
{
    prefix.is_empty() || is_xml_prefix(prefix) || scopes.space(prefix).is_some()
}

// Whether an element may have a prefix. An attribute with such a prefix is no declaration.
#[cold]
fn is_element_prefix<'a>(scopes: &Spaces<'a>, prefix: &'a [u8]) -> bool
    ensures { result ≡ is_element_prefix scopes.now prefix.now }
{
    !is_xmlns(prefix) && is_known(scopes, prefix)
}

// Whether an attribute with this name is a declaration, or has a prefix that may be used.
fn is_known_attribute<'a>(scopes: &Spaces<'a>, name: Name<'a>) -> bool
    ensures { result ≡ (is_there (declared_prefix (name_view name.entry)) || is_known scopes.now (name_view name.entry).prefix) }
{
    declared_prefix(name).is_some() || is_known(scopes, name.prefix)
}

// Adds the declaration of an attribute, if it is one.
#[tactic(auto, unfolding(crate::specs::Inside::Elements::with_attribute))]
fn declare_attribute<'a>(
    scopes: &mut Spaces<'a>,
    alloc: Global,
    attribute: Attribute<'a>,
) -> Result<(), MarkupError>
    ensures { Finds (λ _. scopes.new) result (with_attribute (attribute_view attribute.entry) scopes.old) }
{
    let Some(prefix) = declared_prefix(attribute.name) else {
        return Ok(());
    };
    let name = decode_value(alloc, attribute.value)?;
    if !may_declare(prefix, attribute.value, &name) {
        return Err(MarkupError::Unreadable);
    }
    scopes.declare(prefix, space_named(&name))?;
    Ok(())
}

// Adds the declarations among the attributes of a tail.
fn declare_attributes<'a>(
    scopes: &mut Spaces<'a>,
    alloc: Global,
    tail: &'a [u8],
) -> Result<(), MarkupError>
    ensures { Finds (λ _. scopes.new) result (with_attributes (attributes_of tail.entry.now) scopes.old) }
{
    let mut rest = tail;
    while let Some((attribute, next)) = next_attribute(rest) {
        declare_attribute(scopes, alloc, attribute)?;
        rest = next;
    }
    Ok(())
}

// Whether the prefixes of a tail's attributes may be used.
fn are_known<'a>(scopes: &Spaces<'a>, tail: &'a [u8]) -> bool
    ensures { result ≡ list_all (is_known_attribute scopes.now) (attributes_of tail.now) }
{
    let mut rest = tail;
    while let Some((attribute, next)) = next_attribute(rest) {
        if !is_known_attribute(scopes, attribute.name) {
            return false;
        }
        rest = next;
    }
    true
}

/// The space of an element, if its prefix may be used.
#[inline(always)]
#[tactic(auto, unfolding(crate::specs::Scopes::is_known, crate::specs::Inside::Elements::known))]
pub(crate) fn element_space<'a>(scopes: &mut Spaces<'a>, name: Name<'a>) -> Option<Space>
    ensures space { Gives (λ space. (space, scopes.old)) result (known (name_view name.entry) [] scopes.old) }
    ensures same { scopes.new ≡ scopes.old }
{
    if is_xmlns(name.prefix) {
        return None;
    }
    match scopes.recall(name.prefix) {
        Some(space) => Some(space),
        None if name.prefix.is_empty() || is_xml_prefix(name.prefix) => Some(Space::Other),
        None => None,
    }
}

// The space of an element, if its prefix and those of its attributes may be used.
#[tactic(auto, unfolding(crate::specs::Inside::Elements::known))]
fn known_space<'a>(scopes: &mut Spaces<'a>, name: Name<'a>, tail: &'a [u8]) -> Option<Space>
    ensures space { Gives (λ space. (space, scopes.old)) result (known (name_view name.entry) (attributes_of tail.entry.now) scopes.old) }
    ensures same { scopes.new ≡ scopes.old }
{
    if are_known(scopes, tail) {
        element_space(scopes, name)
    } else {
        None
    }
}

/// Whether no attribute with one of these names is a declaration, and the prefix of each may be used.
#[inline(always)]
pub(crate) fn are_plain<'a>(scopes: &Spaces<'a>, own: &'a [u8], names: &[Name<'a>]) -> bool
    requires { is_element_prefix scopes.now own.now ≡ true }
    ensures { result ≡ list_all (is_plain_name scopes.now) (map name_view names.now) }
{
    // Most attributes have their element's prefix or one other, so few prefixes are looked up.
    let mut other: &'a [u8] = b"";
    let mut left = names.iter();
    while let Some(name) = left.next() {
        if name.prefix.is_empty() {
            if is_xmlns(name.local) {
                return false;
            }
        } else if name.prefix != own && name.prefix != other {
            if !is_element_prefix(scopes, name.prefix) {
                return false;
            }
            other = name.prefix;
        }
    }
    true
}

/// An element that was entered.
#[derive(Clone, Copy)]
pub(crate) struct Entered {
    /// Its namespace.
    pub(crate) space: Space,
    /// How many declarations its start tag has.
    pub(crate) declared: usize,
}

// Enters an element of this name and tail: adds its declarations, and gives its space.
#[cold]
#[tactic(auto, unfolding(crate::specs::Inside::Elements::entered))]
fn enter_declaring<'a>(
    scopes: &mut Spaces<'a>,
    alloc: Global,
    name: Name<'a>,
    tail: &'a [u8],
) -> Result<Entered, MarkupError>
    ensures read { Finds (λ x. (x.space, scopes.new)) result (entered scopes.old (name_view name.entry) tail.entry.now) }
    ensures declared { IfOk result (λ x. x.declared ≡ declared_in tail.entry.now) }
{
    let around = scopes.len();
    declare_attributes(scopes, alloc, tail)?;
    let space = known_space(scopes, name, tail).ok_or(MarkupError::Unreadable)?;
    Ok(Entered {
        space,
        declared: scopes.len() - around,
    })
}

/// Enters an element: adds its declarations, and gives its space.
///
/// `Unreadable` exactly if a declaration is not allowed, or a prefix of the tag may not be used.
#[tactic(auto, unfolding(crate::specs::Inside::Elements::entered))]
#[inline(always)]
pub(crate) fn enter<'a>(
    scopes: &mut Spaces<'a>,
    alloc: Global,
    tag: &StartTag<'a>,
) -> Result<Entered, MarkupError>
    ensures read { Finds (λ x. (x.space, scopes.new)) result (entered scopes.old tag.now.name tag.now.tail) }
    ensures declared { IfOk result (λ x. x.declared ≡ declared_in tag.now.tail) }
{
    let name = tag.name();
    if let Some(space) = element_space(scopes, name) {
        // Most tags declare nothing.
        if are_plain(scopes, name.prefix, tag.attributes()) {
            return Ok(Entered { space, declared: 0 });
        }
    }
    enter_declaring(scopes, alloc, name, tag.tail())
}
