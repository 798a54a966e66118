//! What holds of the revisions of every package, as statements of the definitions alone.

ghost use Rattle.std.specs.Prelude.{◌≡◌, All};
ghost use Rattle.redl_tree.specs.Model.Nodes.{Nodes};
ghost use Rattle.redl_index.specs.Numbers.{numbered_package, package_revisions};
ghost use Rattle.redl_index.specs.Revisions.{AreNumbered, IsInStory, revisions_of};

/// The numbers of the revisions of a package count from 1 in their order.
pub fn revisions_are_numbered()
    ensures { (nodes : Nodes) → AreNumbered (revisions_of nodes) }
{}

/// The part of each revision is a story of the package, and has a name.
pub fn each_revision_has_a_part()
    ensures { (nodes : Nodes) → All (IsInStory nodes) (revisions_of nodes) }
{}

/// A numbered package has the revisions of the original.
pub fn numbering_keeps_revisions()
    ensures revisions { (nodes : Nodes) → revisions_of (numbered_package nodes) ≡ revisions_of nodes }
    ensures count { (nodes : Nodes) → package_revisions (numbered_package nodes) ≡ package_revisions nodes }
{}
