//! The markers of moves in one story, and the ends of its paragraphs (ECMA-376 Part 1, 17.13.5.23 to 17.13.5.28).

ghost use Rattle.std.specs.Prelude.{◌≡◌, ◌^◌, ◌<◌, ◌++◌, IfOk, OnOk, length, option_map, option_to_list, map};
ghost use Rattle.redl_tree.specs.Model.Count.{count};
ghost use Rattle.redl_tree.specs.Model.View.{tag_of, kids_of};
ghost use Rattle.redl_tree.specs.Revisions.Markers.{edge_of as edge_of_tag};
ghost use Rattle.redl_moves.specs.Marks.{marking_of, markings, edge_of, RisesFrom};
ghost use Rattle.redl_index.specs.Markers.Ends.{ends_from};
ghost use Rattle.redl_index.specs.Markers.Found.{markers_of, marker_tails};
ghost use Rattle.redl_index.specs.Inside.Markers.Finding.{marker_by, tail_by};

use redl_moves::{Edge, Marker};
use redl_stamp::attribute;
use redl_tree::{Elem, Word, is_word};
use redl_visit::{Ancestors, visit_kids};
use std::alloc::{AllocError, Global};
use trail::Trail;

mod ends;
mod finder;
mod revised;
mod trail;

pub(crate) use finder::Finder;
pub(crate) use trail::Below;

/// What a story's moves rest on.
#[derive(Drop)]
pub struct StoryMarkers<'a> {
    /// The markers, in the order of their start tags.
    pub marks: Vec<Marker>,
    /// The attributes of each marker, in the same order.
    pub tails: Vec<&'a [u8]>,
    /// The positions of the end tags of the paragraphs below the root, in the order of their start tags.
    pub ends: Vec<u64>,
}

/// The markers of the story with this root, and the ends of the paragraphs below the root.
///
/// Markers are the open starts and ends of ranges that have an `id`, of any prefix but that of declarations (ECMA-376 Part 1,
/// 17.13.5.23 to 17.13.5.28). Positions number the start tags and end tags of the story in the order of its text, and the root's
/// start tag has 0. Each element is looked at once, and the properties of rows and cells twice. `Err` means out of memory.
pub fn find_markers<'a>(alloc: Global, root: &Elem<'a>) -> Result<StoryMarkers<'a>, AllocError>
    requires few { count (kids_of root.now) < 2 ^ 32 }
    ensures marks { IfOk result (λ found. markings found.marks.items ≡ markers_of (tag_of root.now) (kids_of root.now)) }
    ensures tails { IfOk result (λ found. map (λ tail. tail.now) found.tails.items ≡ marker_tails (tag_of root.now) (kids_of root.now)) }
    ensures ends { IfOk result (λ found. found.ends.items ≡ ends_from 1 (kids_of root.now)) }

    // what `redl_moves` asks for
    ensures few { IfOk result (λ found. length found.marks.items < 2 ^ 32) }
    ensures rising { IfOk result (λ found. RisesFrom 0 (markings found.marks.items)) }
{
    let inner = Ancestors::none().inside(root);
    let below = Below::of_root(root);
    let mut finder = Finder::new(alloc);
    visit_kids(root, &inner, &below, &mut finder)?;
    Ok(finder.found)
}

impl<'a> StoryMarkers<'a> {
    /// Adds the marker that an element is, where it is one. `here` and `trail` sum up its ancestors, and `at` is the position of its
    /// start tag. `Err` means out of memory.
    pub(crate) fn add_marker(
        &mut self,
        alloc: Global,
        elem: &Elem<'a>,
        here: &Ancestors,
        trail: Trail,
        at: u64,
    ) -> Result<(), AllocError>
        ensures marks { OnOk result (markings self.new.marks.items ≡ markings self.old.marks.items ++ option_to_list (marker_by here.now trail at (tag_of elem.now))) }
        ensures tails { OnOk result (map (λ tail. tail.now) self.new.tails.items ≡ map (λ tail. tail.now) self.old.tails.items ++ option_to_list (tail_by here.now trail at (tag_of elem.now))) }
        ensures ends { OnOk result (self.new.ends.items ≡ self.old.ends.items) }
    {
        match marker(alloc, elem, here, trail, at)? {
            Some(marker) => {
                self.marks.push(marker)?;
                self.tails.push(elem.tail())?;
                Ok(())
            }
            None => Ok(()),
        }
    }
}

// The marker that an element is, where it is one. `here` and `trail` sum up its ancestors, and `at` is the position of its start
// tag. `Err` means out of memory.
fn marker(
    alloc: Global,
    elem: &Elem,
    here: &Ancestors,
    trail: Trail,
    at: u64,
) -> Result<Option<Marker>, AllocError>
    ensures { IfOk result (λ found. option_map marking_of found ≡ marker_by here.now trail at (tag_of elem.now)) }
{
    if here.around.is_quiet() {
        return Ok(None);
    }
    let Some(edge) = edge_of(elem) else {
        return Ok(None);
    };
    let Some(id) = attribute(alloc, elem.tail(), b"id")? else {
        return Ok(None);
    };
    let name = attribute(alloc, elem.tail(), b"name")?;
    Ok(Some(Marker {
        edge,
        id,
        name,
        at,
        loose: trail.is_loose(here),
    }))
}

// Which end of which range an element is by its name.
fn edge_of(elem: &Elem) -> Option<Edge>
    ensures { option_map edge_of result ≡ edge_of_tag (tag_of elem.now) }
{
    if is_word(elem, Word::MoveFromRangeStart) {
        Some(Edge::FromStart)
    } else if is_word(elem, Word::MoveFromRangeEnd) {
        Some(Edge::FromEnd)
    } else if is_word(elem, Word::MoveToRangeStart) {
        Some(Edge::ToStart)
    } else if is_word(elem, Word::MoveToRangeEnd) {
        Some(Edge::ToEnd)
    } else {
        None
    }
}
