//! What is passed at the start tag of an element.

ghost use Rattle.std.specs.Prelude.{◌≡◌, OnOk};
ghost use Rattle.redl_tree.specs.Model.View.{tag_of};
ghost use Rattle.redl_spans.specs.Units.{anchor_named, is_unit_name, place_steps, start_steps, steps_at};
ghost use Rattle.redl_spans.specs.Walks.{stepped};

use crate::place::{Anchor, CommentPlace};
use crate::walked::{Walk, passed};
use redl_io::Text;
use redl_relations::value_in;
use redl_tree::{Elem, Space};
use std::alloc::AllocError;

/// An element begins. `Err` means out of memory, here and below.
#[inline(never)]
pub(crate) fn start_elem(elem: &Elem, walk: &mut Walk) -> Result<(), AllocError>
    ensures { OnOk result (walk.new ≡ stepped (steps_at (tag_of elem.now)) walk.old) }
{
    match elem.space() {
        Space::W => start(elem.local(), elem.tail(), walk),
        _ => Ok(()),
    }
}

/// An element of WordprocessingML begins, with this local name and tail.
pub(crate) fn start(local: &[u8], tail: &[u8], walk: &mut Walk) -> Result<(), AllocError>
    ensures { OnOk result (walk.new ≡ stepped (start_steps local.now tail.now) walk.old) }
{
    if is_unit_name(local) {
        walk.here = passed(walk.here, 1)?;
        return Ok(());
    }
    note_place(anchor_named(local), tail, walk)
}

fn note_place(anchor: Option<Anchor>, tail: &[u8], walk: &mut Walk) -> Result<(), AllocError>
    ensures { OnOk result (walk.new ≡ stepped (place_steps anchor tail.now) walk.old) }
{
    let Some(anchor) = anchor else {
        return Ok(());
    };
    let id = Text::copy_of(walk.alloc, value_in(tail, b"id"))?;
    walk.places.push(CommentPlace {
        anchor,
        id,
        story: walk.story,
        at: walk.here,
    })?;
    Ok(())
}

// Whether an element of WordprocessingML with this local name is a unit.
fn is_unit_name(local: &[u8]) -> bool
    ensures { result ≡ is_unit_name local.now }
{
    match local.len() {
        2 => local == b"br".as_slice() || local == b"cr".as_slice(),
        3 => local == b"tab".as_slice() || local == b"sym".as_slice(),
        4 => local == b"ptab".as_slice() || local == b"pict".as_slice(),
        6 => local == b"object".as_slice(),
        7 => local == b"drawing".as_slice(),
        10 => local == b"softHyphen".as_slice(),
        13 => local == b"noBreakHyphen".as_slice(),
        16 => local == b"endnoteReference".as_slice(),
        17 => local == b"footnoteReference".as_slice(),
        _ => false,
    }
}

// What an element of WordprocessingML with this local name is to a comment.
fn anchor_named(local: &[u8]) -> Option<Anchor>
    ensures { result ≡ anchor_named local.now }
{
    if local == b"commentRangeStart".as_slice() {
        return Some(Anchor::Start);
    }
    if local == b"commentRangeEnd".as_slice() {
        return Some(Anchor::End);
    }
    if local == b"commentReference".as_slice() {
        return Some(Anchor::Reference);
    }
    None
}
