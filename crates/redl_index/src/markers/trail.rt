//! What a marker has to know of its ancestors, beside their summary.

ghost use Rattle.std.specs.Prelude.{◌≡◌, []};
ghost use Rattle.redl_tree.specs.Revisions.Markers.{is_in_grid as in_grid, is_reached as reached};
ghost use Rattle.redl_tree.specs.Model.Kids.{has_element};
ghost use Rattle.redl_tree.specs.Model.View.{tag_of, kids_of};
ghost use Rattle.redl_index.specs.Inside.Markers.Trails.{trail_of, inside_trail, trail_below, below_root, is_loose_at, is_own_at, leaves_grid_at};

use crate::markers::revised::is_revised;
use redl_tree::{Elem, Lot, Place, Reach, Word, is_word};
use redl_visit::Ancestors;

/// What a marker has to know of its ancestors in its story, beside their summary.
#[derive(Clone, Copy, Debug, PartialEq, Eq)]
pub(crate) struct Trail {
    /// Whether some ancestor is a revision itself.
    pub(crate) revised: bool,
    /// Whether some ancestor is in a table outside its own rows, or in a row outside its own cells.
    pub(crate) astray: bool,
}

/// What is handed down to the kids of an element.
#[derive(Clone, Copy, Debug, PartialEq, Eq)]
pub(crate) struct Below {
    /// Their trail.
    pub(crate) trail: Trail,
    /// The place among the ends for the end of the element.
    pub(crate) place: usize,
}

impl Trail {
    // The trail of a story's root, which has no ancestors.
    fn top() -> Trail
        ensures { result ≡ trail_of [] }
    {
        Trail {
            revised: false,
            astray: false,
        }
    }

    // The trail of the kids of `elem`, from its own. `here` sums up the ancestors of the element.
    fn inside(self, elem: &Elem, here: &Ancestors) -> Trail
        ensures { result ≡ inside_trail (tag_of elem.now) (kids_of elem.now) here.now self }
    {
        Trail {
            revised: self.revised || is_revised(elem),
            astray: self.astray || leaves_grid(here.place, elem),
        }
    }

    /// The same where `holds` says that an element is among the kids. Where none is there is nothing to know, and the trail stays
    /// as it is.
    pub(crate) fn below(self, elem: &Elem, here: &Ancestors, holds: bool) -> Trail
        requires { holds ≡ has_element (kids_of elem.now) }
        ensures { result ≡ trail_below (tag_of elem.now) (kids_of elem.now) here.now self }
    {
        if holds { self.inside(elem, here) } else { self }
    }

    /// Whether a marker with this trail is loose. `here` sums up its ancestors.
    pub(crate) fn is_loose(self, here: &Ancestors) -> bool
        ensures { result ≡ is_loose_at here.now self }
    {
        self.revised || is_in_grid(here.place) || self.astray
    }
}

impl Below {
    /// What is handed down to the kids of a story's root.
    pub(crate) fn of_root(root: &Elem) -> Below
        ensures { result ≡ below_root (tag_of root.now) (kids_of root.now) }
    {
        Below {
            trail: Trail::top().inside(root, &Ancestors::none()),
            place: 0,
        }
    }
}

// Whether it is among the rows of a table or the cells of a row, shells included.
fn is_in_grid(here: Place) -> bool
    ensures { result ≡ in_grid here }
{
    match (here.lot, here.reach) {
        (Lot::Blocks, _) | (_, Reach::Beyond) => false,
        _ => true,
    }
}

// Whether an element here is an own row of its table, or an own cell of its row.
fn is_own(here: Place, elem: &Elem) -> bool
    ensures { result ≡ is_own_at here (tag_of elem.now) }
{
    match (here.lot, here.reach) {
        (Lot::Rows, Reach::Direct) => is_word(elem, Word::Tr),
        (Lot::Cells, Reach::Direct) => is_word(elem, Word::Tc),
        _ => false,
    }
}

// Whether an element here is in a table or row, and what it holds in none of the own rows or cells.
fn leaves_grid(here: Place, elem: &Elem) -> bool
    ensures { result ≡ leaves_grid_at here (tag_of elem.now) }
{
    is_in_grid(here) && !is_own(here, elem) && !is_reached(here.reach.into(elem))
}

fn is_reached(reach: Reach) -> bool
    ensures { result ≡ reached reach }
{
    match reach {
        Reach::Beyond => false,
        _ => true,
    }
}
