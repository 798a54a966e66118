//! One story: which move its elements are in.

ghost use Rattle.std.specs.Prelude.{◌≡◌, [], get_or, option_map, IfSome, IsTrue};
ghost use Rattle.redl_tree.specs.Revisions.Moves.{pairs};
ghost use Rattle.redl_tree.specs.Revisions.Markers.{move_at};
ghost use Rattle.redl_tree.specs.Model.View.{tag_of};
ghost use Rattle.redl_tree.specs.Roles.Arounds.{role_in};
ghost use Rattle.redl_moves.specs.Standing.{IsApart};
ghost use Rattle.redl_moves.specs.Starts.{start_in};
ghost use Rattle.redl_kinds.specs.Kinds.{is_named};
ghost use Rattle.redl_index.specs.Kinds.{kind_of};
ghost use Rattle.redl_index.specs.Inside.Stories.{tails_in};
ghost use Rattle.redl_index.specs.Inside.Sights.{IsApartAs, is_marker_by, marker_start, member_start, sight_at};

use redl_moves::{Moves, Side, Start};
use redl_stamp::has_attribute;
use redl_tree::{Around, Elem, Kind, Trace, is_range_edge};

/// A story whose markers are known.
#[derive(Clone, Copy)]
pub(crate) struct Story<'s, 'a> {
    /// The number of its part.
    pub(crate) part: u32,
    /// Its moves.
    pub(crate) moves: &'s Moves,
    /// The attributes of its markers.
    pub(crate) tails: &'s [&'a [u8]],
}

/// What an element is in its story.
#[derive(Clone, Copy, Debug, PartialEq, Eq)]
pub(crate) struct Sight {
    /// Its kind.
    pub(crate) kind: Kind,
    /// Where the move starts that it is in.
    pub(crate) start: Option<Start>,
}

impl<'a> Story<'_, 'a> {
    /// The attributes of the marker at a place among the markers.
    pub(crate) fn tail(&self, place: u32) -> &'a [u8]
        ensures { result.now ≡ get_or (tails_in self.now) place [] }
    {
        match self.tails.get(place as usize) {
            Some(tail) => tail,
            None => b"",
        }
    }
}

impl Sight {
    /// What an element is that has its start tag at this position, in a story with these moves, where the nearest paragraph ends
    /// at `para_end`. No marker may be where its role is.
    pub(crate) fn of(moves: &Moves, elem: &Elem, around: Around, para_end: u64, at: u64) -> Sight
        requires apart { IsApartAs moves.now (role_in around (tag_of elem.now)) at para_end }
        ensures sight { result ≡ sight_at moves.now around para_end at (tag_of elem.now) }
        ensures named { IfSome (kind_of result.kind) (λ named. IsTrue (is_named named)) }
    {
        let marker = marker(moves, elem, around, at);
        if marker.is_some() {
            return Sight {
                kind: Kind::Marker,
                start: marker,
            };
        }
        let kind = around.role(elem);
        Sight {
            kind,
            start: member(moves, kind, at, para_end),
        }
    }
}

// Where the move starts of which an element is a marker.
fn marker(moves: &Moves, elem: &Elem, around: Around, at: u64) -> Option<Start>
    ensures { result ≡ marker_start moves.now around at (tag_of elem.now) }
{
    if is_marker(elem, around) {
        moves.at_marker(at)
    } else {
        None
    }
}

// Where the move starts of which an element with this role is a member. Content is where it starts, and the mark of a paragraph
// where the paragraph ends.
fn member(moves: &Moves, role: Kind, at: u64, para_end: u64) -> Option<Start>
    requires apart { IsApartAs moves.now role at para_end }
    ensures { result ≡ member_start moves.now role at para_end }
{
    match role {
        Kind::Content(trace) => open_at(moves, trace, at),
        Kind::Mark(trace) => open_at(moves, trace, para_end),
        _ => None,
    }
}

// Where the move starts that something with this trace is in at this position.
fn open_at(moves: &Moves, trace: Trace, at: u64) -> Option<Start>
    requires apart { IsApart at moves.now }
    ensures { result ≡ option_map (start_in moves.now) (move_at (pairs moves.now) trace at) }
{
    match trace {
        Trace::From => moves.open_at(Side::Source, at),
        Trace::To => moves.open_at(Side::Target, at),
        _ => None,
    }
}

// Whether an element is a marker of a move: an open edge of a range, with an `id`.
fn is_marker(elem: &Elem, around: Around) -> bool
    ensures { result ≡ is_marker_by around (tag_of elem.now) }
{
    !around.is_quiet() && is_range_edge(elem) && has_attribute(elem.tail(), b"id")
}
