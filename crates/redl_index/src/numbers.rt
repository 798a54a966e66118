//! The numbers that the elements of a story get, in the order of their start tags.

ghost use Rattle.std.specs.Prelude.{◌≡◌, ◌+◌, ◌^◌, ◌<◌, get_or, set, is_some};
ghost use Rattle.redl_index.specs.Kinds.{kind_of};
ghost use Rattle.redl_index.specs.Inside.Numberings.{numbers_view, one_given, number_at, given_at, number_given, given};

use crate::story::Sight;
use redl_tree::Kind;

/// The numbers of a story so far.
#[derive(Drop)]
pub(crate) struct Numbers {
    /// The next number.
    pub(crate) next: u32,
    /// The number of each move, at the place of its source's start among the markers. 0 stands for none.
    pub(crate) moves: Vec<u32>,
}

impl Numbers {
    /// The number of the element with this `Sight`, 0 where it is in no revision. The first element of a revision takes the
    /// next number.
    pub(crate) fn number(&mut self, sight: Sight) -> u32
        requires few { self.old.next + 1 < 2 ^ 32 }
        ensures number { result ≡ number_given sight (numbers_view self.old) }
        ensures given { numbers_view self.new ≡ given sight (numbers_view self.old) }
    {
        if !is_member(sight.kind) {
            return 0;
        }
        match sight.start {
            Some(start) => self.number_of_move(start.place),
            None => self.take(),
        }
    }

    // The number of the move whose source starts with the marker at this place.
    fn number_of_move(&mut self, place: u32) -> u32
        requires few { self.old.next + 1 < 2 ^ 32 }
        ensures number { result ≡ number_at place (numbers_view self.old) }
        ensures given { numbers_view self.new ≡ given_at place (numbers_view self.old) }
    {
        let known = self.known(place);
        if known != 0 {
            return known;
        }
        let number = self.take();
        self.note(place, number);
        number
    }

    // The next number.
    fn take(&mut self) -> u32
        requires few { self.old.next + 1 < 2 ^ 32 }
        ensures number { result ≡ self.old.next }
        ensures taken { numbers_view self.new ≡ one_given (numbers_view self.old) }
    {
        let number = self.next;
        self.next += 1;
        number
    }

    // The number at a place, or 0.
    fn known(&self, place: u32) -> u32
        ensures { result ≡ get_or self.now.moves.items place 0 }
    {
        match self.moves.get(place as usize) {
            Some(number) => *number,
            None => 0,
        }
    }

    // Notes the number of the move at a place.
    fn note(&mut self, place: u32, number: u32)
        ensures next { self.new.next ≡ self.old.next }
        ensures moves { self.new.moves.items ≡ set self.old.moves.items place number }
    {
        if let Some(noted) = self.moves.get_mut(place as usize) {
            *noted = number;
        }
    }
}

// Whether an element of this kind is in a revision.
fn is_member(kind: Kind) -> bool
    ensures { result ≡ is_some (kind_of kind) }
{
    match kind {
        Kind::Plain => false,
        _ => true,
    }
}
