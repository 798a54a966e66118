//! Tags: start tags with their attributes, tags of empty elements, and end tags.

ghost use Rattle.std.specs.Prelude.{◌≡◌, codes, map, IfOk, IfSome};
ghost use Rattle.redl_markup.specs.Attributes.{names_in};
ghost use Rattle.redl_reading.specs.Lists.{before};
ghost use Rattle.redl_markup.specs.Reading.{Finds};
ghost use Rattle.redl_reading.specs.Steps.{Gives};
ghost use Rattle.redl_grammar.specs.ScanTags.{ends_tag, attributes_at, tail_at, tag_at, end_tag_at};
ghost use Rattle.redl_markup.specs.Views.{name_view};
ghost use Rattle.redl_markup.specs.Inside.Preserving.{Preserves};
ghost use Rattle.redl_markup.specs.PieceViews.{piece_view};
ghost use Rattle.redl_grammar.specs.Pieces.{end_tag as an_end_tag};

use crate::attribute::attribute_behind;
use crate::distinct::no_two_alike;
use crate::error::MarkupError;
use crate::name::{Name, whole_name};
use crate::piece::{Piece, StartTag};
use crate::space::spaces;
use redl_reading::{before, skip};
use std::alloc::Global;
use std::mem;

#[tactic(auto, unfolding(redl_grammar::specs::ScanTags::ends_tag))]
#[inline(always)]
pub(crate) fn is_at_end(bytes: &[u8]) -> bool
    ensures { result ≡ ends_tag bytes.now }
{
    matches!(bytes, [b'>' | b'/', ..])
}

// The names of a tag's attributes, and the bytes after the attributes and their white space.
#[inline(always)]
fn attributes<'a>(
    list: Vec<Name<'a>>,
    bytes: &'a [u8],
) -> Result<(Vec<Name<'a>>, &'a [u8]), MarkupError>
    ensures { Finds (λ x. (map name_view x.0.items, x.1.now)) result (attributes_at bytes.entry.now) }
{
    let mut names = list;
    names.clear();
    let mut rest = bytes;
    loop {
        let (gap, next) = spaces(rest);
        if is_at_end(next) {
            return Ok((names, next));
        }
        let Some((attribute, next)) = attribute_behind(gap, next) else {
            return Err(MarkupError::Unreadable);
        };
        names.push(attribute.name)?;
        rest = next;
    }
}

// The bytes after the tail ` xml:space="preserve"`, which most texts have.
#[inline(always)]
fn after_preserve(bytes: &[u8]) -> Option<&[u8]>
    ensures { IfSome result (λ end. Preserves bytes.now end.now) }
{
    let end = skip(bytes, b" xml:space=\"preserve\"")?;
    if is_at_end(end) { Some(end) } else { None }
}

// The names of the attributes of a tail, and the bytes after the tail.
#[tactic(auto, unfolding(redl_grammar::specs::ScanTags::tail_at))]
#[inline(always)]
fn tail<'a>(
    alloc: Global,
    list: Vec<Name<'a>>,
    bytes: &'a [u8],
) -> Result<(Vec<Name<'a>>, &'a [u8]), MarkupError>
    ensures read { Finds (λ x. (before bytes.entry.now x.1.now, x.1.now)) result (tail_at bytes.entry.now) }
    ensures names { IfOk result (λ x. map name_view x.0.items ≡ names_in (before bytes.entry.now x.1.now)) }
{
    if is_at_end(bytes) {
        // Many tags have no attributes.
        let mut names = list;
        names.clear();
        return Ok((names, bytes));
    }
    if let Some(end) = after_preserve(bytes) {
        let mut names = list;
        names.clear();
        names.push(Name {
            prefix: b"xml",
            local: b"space",
        })?;
        return Ok((names, end));
    }
    let (names, rest) = attributes(list, bytes)?;
    if no_two_alike(alloc, &names)? {
        Ok((names, rest))
    } else {
        Err(MarkupError::Unreadable)
    }
}

/// A start tag or an empty element's tag, given the bytes after its `<`. It takes the list for its names.
#[tactic(auto, unfolding(redl_grammar::specs::ScanTags::tag_at))]
#[inline(always)]
pub(crate) fn start_tag<'a>(
    alloc: Global,
    list: &mut Vec<Name<'a>>,
    bytes: &'a [u8],
) -> Result<(Piece<'a>, &'a [u8]), MarkupError>
    ensures { Finds (λ x. (piece_view x.0, x.1.now)) result (tag_at bytes.entry.now) }
{
    let Some((name, rest)) = whole_name(bytes) else {
        return Err(MarkupError::Unreadable);
    };
    let list = mem::replace(list, Vec::new(alloc));
    let (attributes, end) = tail(alloc, list, rest)?;
    let tag = StartTag::new(name, before(rest, end), before(bytes, end), attributes);
    if let Some(rest) = skip(end, b">") {
        return Ok((Piece::Start(tag), rest));
    }
    match skip(end, b"/>") {
        Some(rest) => Ok((Piece::Empty(tag), rest)),
        None => Err(MarkupError::Unreadable),
    }
}

/// The name of an end tag, the white space after the name, and the bytes after the tag, given those after its `</`.
#[tactic(auto, unfolding(redl_grammar::specs::ScanTags::end_tag_at))]
#[inline(always)]
pub(crate) fn end_tag(bytes: &[u8]) -> Option<(Name<'_>, &[u8], &[u8])>
    ensures { Gives (λ x. (an_end_tag (name_view x.0) x.1.now, x.2.now)) result (end_tag_at bytes.now) }
{
    let (name, rest) = whole_name(bytes)?;
    let (space, rest) = spaces(rest);
    let rest = skip(rest, b">")?;
    Some((name, space, rest))
}
