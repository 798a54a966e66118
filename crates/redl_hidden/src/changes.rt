//! Changes of the properties of runs.

ghost use Rattle.std.specs.Prelude.{◌≡◌};
ghost use Rattle.redl_tree.specs.Model.View.{kids_of};
ghost use Rattle.redl_hidden.specs.Runs.{changes_vanish, differ};

use crate::value::vanish_in;
use redl_lists::Part;
use redl_tree::Elem;

/// Whether a change of a run's properties makes the run hidden or shown, or says so where nothing was said. It takes no memory.
///
/// `properties` are the present ones, which hold the change.
pub fn changes_vanish(properties: &Elem, change: &Elem) -> bool
    ensures { result ≡ changes_vanish (kids_of properties.now) (kids_of change.now) }
{
    let present = vanish_in(&Some(Part::Tree(properties)));
    let former = vanish_in(&Part::Tree(change).first_named(b"rPr"));
    differ(present, former)
}

fn differ(one: Option<bool>, other: Option<bool>) -> bool
    ensures { result ≡ differ one other }
{
    match (one, other) {
        (None, None) => false,
        (Some(one), Some(other)) => one != other,
        (Some(_), None) | (None, Some(_)) => true,
    }
}
