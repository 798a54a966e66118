//! The fate of an element by the say on its revision.

ghost use Rattle.std.specs.Prelude.{◌≡◌};
ghost use Rattle.redl_tree.specs.Decisions.Fates.{fate_of as fate_by, say_of};
ghost use Rattle.redl_tree.specs.Model.View.{tag_of};

use crate::fates::fate;
use redl_tree::{Elem, Fate, Say};

/// What becomes of an element, where `says` has the say on each revision in the order of their numbers.
///
/// An element without a revision, or with a number that `says` does not have, is undecided. It takes no memory.
pub fn fate_of(says: &[Say], elem: &Elem) -> Fate
    ensures { result ≡ fate_by says.now (tag_of elem.now) }
{
    fate(elem.kind(), say_at(says, elem.rev()))
}

/// The say on the revision with this number. Numbers count from 1, and a revision without a say is undecided.
pub fn say_at(says: &[Say], rev: u32) -> Say
    ensures { result ≡ say_of says.now rev }
{
    match (rev as usize).checked_sub(1) {
        Some(index) if index < says.len() => says[index],
        _ => Say::Keep,
    }
}
