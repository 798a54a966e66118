//! A summary of an element's ancestors.

ghost use Rattle.std.specs.Prelude.{◌≡◌, []};
ghost use Rattle.redl_tree.specs.Model.Nodes.{Tag};
ghost use Rattle.redl_tree.specs.Model.View.{tag_of};
ghost use Rattle.redl_tree.specs.Roles.Arounds.{around_inside};
ghost use Rattle.redl_visit.specs.Summaries.{ancestors_of, ancestors_inside};
ghost use Rattle.redl_visit.specs.Visits.{inner_of};

use crate::element::Element;
use redl_tree::{Around, Elem, Place, has_elements};

/// A summary of an element's ancestors in its story, for a walk that asks for its role and for the list that it is in.
///
/// A walk that asks for the role alone hands down `Around`, and one that asks for the list alone `Site` of `redl_tree`.
#[derive(Clone, Copy, Debug, PartialEq, Eq)]
pub struct Ancestors {
    /// Whether some ancestor holds properties, and what the nearest ancestor is.
    pub around: Around,
    /// What the list that the element is in consists of.
    pub place: Place,
}

impl Ancestors {
    /// The summary for a story's root, which has no ancestors.
    pub fn none() -> Ancestors
        ensures { result ≡ ancestors_of [] }
    {
        Ancestors {
            around: Around::top(),
            place: Place::nowhere(),
        }
    }

    /// The summary for the kids of `elem`, from its own.
    pub fn inside(self, elem: &Elem) -> Ancestors
        ensures { result ≡ ancestors_inside (tag_of elem.now) self }
    {
        let around = self.around.inside(elem);
        Ancestors {
            around,
            place: self.place.below(elem, around.is_quiet()),
        }
    }
}

/// A summary of an element's ancestors, which a walk hands down from element to element.
pub trait Summary<E: Element>: Copy {
    ghost inside: { Tag → Self → Self };

    /// The summary for the kids of `elem`, from its own. `None` exactly where no element is among the kids.
    fn inner(self, elem: &E) -> Option<Self>
        ensures { result ≡ inner_of Self.inside (E.tag elem.now) (E.kids elem.now) self };
}

impl<'a> Summary<Elem<'a>> for Ancestors {
    ghost inside = { ancestors_inside };

    #[inline(always)]
    fn inner(self, elem: &Elem<'a>) -> Option<Ancestors> {
        if has_elements(elem.kids()) {
            Some(self.inside(elem))
        } else {
            None
        }
    }
}

impl<'a> Summary<Elem<'a>> for Around {
    ghost inside = { around_inside };

    #[inline(always)]
    fn inner(self, elem: &Elem<'a>) -> Option<Around> {
        if has_elements(elem.kids()) {
            Some(self.inside(elem))
        } else {
            None
        }
    }
}
