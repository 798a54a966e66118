//! What a reviewer can choose.
ghost use Rattle.std.specs.Prelude.{◌≡◌};

use crate::group::Group;
use crate::rev_kind::RevKind;
use redl_io::Text;

/// A choice of revisions of a package.
#[derive(Drop)]
pub enum Selection {
    /// Each revision.
    All,
    /// What these items list, in any order, repeats included.
    Numbers(Vec<Listed>),
    /// The revisions by the author with this name, compared byte by byte.
    Author(Text),
    /// The revisions made from the first moment on and before the second, in seconds from 1970-01-01T00:00:00Z. A revision without
    /// a date is never chosen.
    Span(i64, i64),
    /// The revisions of this kind.
    Kind(RevKind),
    /// The revisions whose kind is in this group.
    Group(Group),
    /// The revisions of the edits whose numbers these items list (`redl_edits`), in any order, repeats included.
    Edits(Vec<Listed>),
}

/// An item in a list of numbers.
#[derive(Clone, Copy, Debug, PartialEq, Eq)]
pub enum Listed {
    /// This number, whether the package has it or not.
    One(u32),
    /// The numbers from the first to the last, both included. Of those past the last number that the package has only the first one
    /// is chosen, so that no range is longer than the package. Where the first is greater than the last nothing is chosen.
    Range(u32, u32),
}

impl Listed {
    ghost use Rattle.redl_kinds.specs.Selections.{has_number};

    /// Whether the number is in the item.
    pub fn has(self, number: u32) -> bool
        ensures { result ≡ has_number number self }
    {
        match self {
            Listed::One(one) => one == number,
            Listed::Range(first, last) => first <= number && number <= last,
        }
    }
}
