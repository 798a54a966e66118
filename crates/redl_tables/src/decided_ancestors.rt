//! What a walk over a story knows of the ancestors of some nodes.

ghost use Rattle.std.specs.Prelude.{◌≡◌, ◌∷◌, ◌&&◌, ◌||◌, [], List};
ghost use Rattle.redl_tables.specs.DecidedAncestors.{ancestors_of, decided_inside, frees, leaves, revives};
ghost use Rattle.redl_tree.specs.Decisions.Fates.{fate_of as fate_by};
ghost use Rattle.redl_tree.specs.Model.Nodes.{Tag};
ghost use Rattle.redl_tree.specs.Model.View.{tag_of};
ghost use Rattle.redl_tree.specs.Roles.Kinds.{is_old_content as is_old_content_kind};

use redl_tree::{Elem, Fate, Kind, Say, Site, Trace};

/// What a walk under says, as the pass or that of the plain text, knows of the ancestors of some nodes, in place of their list.
#[derive(Clone, Copy, Debug, PartialEq, Eq)]
pub struct DecidedAncestors {
    /// Whether one of them holds properties, and what the list of the nodes consists of.
    pub site: Site,
    /// Some ancestor is a content revision of old matter, a `del` or a `moveFrom`, that is freed.
    pub freed: bool,
    /// Some ancestor is one that is left.
    pub left: bool,
}

impl DecidedAncestors {
    /// What is known of a story's root, which has no ancestors.
    pub fn none() -> DecidedAncestors
        ensures { (says : List Say) → result ≡ ancestors_of says [] }
    {
        DecidedAncestors {
            site: Site::none(),
            freed: false,
            left: false,
        }
    }

    /// What is known inside an element, given what is known of its own ancestors and what becomes of it.
    pub fn inside(self, elem: &Elem, fate: Fate) -> DecidedAncestors
        ensures inside { (says : List Say) → fate ≡ fate_by says (tag_of elem.now) → result ≡ decided_inside says (tag_of elem.now) self }

        // So it is what is known of the list of ancestors with the element in front.
        ensures list { (says : List Say) → fate ≡ fate_by says (tag_of elem.now) → (ancestors : List Tag) → self ≡ ancestors_of says ancestors
            → result ≡ ancestors_of says (tag_of elem.now ∷ ancestors) }
    {
        DecidedAncestors {
            site: self.site.inside(elem),
            freed: is_freed_inside(self, elem, fate),
            left: is_left_inside(self, elem, fate),
        }
    }

    /// Whether deleted text is live again there: it is open, some deletion or move around it is freed, and none is left.
    pub fn revives(self) -> bool
        ensures { result ≡ revives self }
    {
        !self.site.quiet && self.freed && !self.left
    }
}

fn is_freed_inside(ancestors: DecidedAncestors, elem: &Elem, fate: Fate) -> bool
    ensures { (says : List Say) → fate ≡ fate_by says (tag_of elem.now) → result ≡ (frees says (tag_of elem.now) || ancestors.freed) }
{
    (is_old_content(elem.kind()) && fate == Fate::Free) || ancestors.freed
}

fn is_left_inside(ancestors: DecidedAncestors, elem: &Elem, fate: Fate) -> bool
    ensures { (says : List Say) → fate ≡ fate_by says (tag_of elem.now) → result ≡ (leaves says (tag_of elem.now) || ancestors.left) }
{
    (is_old_content(elem.kind()) && fate == Fate::Leave) || ancestors.left
}

// Whether an element of this kind is run content that was deleted or moved away.
fn is_old_content(kind: Kind) -> bool
    ensures { result ≡ is_old_content_kind kind }
{
    matches!(kind, Kind::Content(Trace::Del | Trace::From))
}
