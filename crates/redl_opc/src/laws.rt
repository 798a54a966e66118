//! What holds of every package, as statements of the definitions alone: where its stories are, and what numbers leave as it is.

ghost use Rattle.std.specs.Prelude.{◌≡◌, ℕ, List, length, Contains, None};
ghost use Rattle.redl_tree.specs.Revisions.Markers.{Value};
ghost use Rattle.redl_tree.specs.Model.Nodes.{Nodes};
ghost use Rattle.redl_tree.specs.Revisions.Numbers.{numbered_package_by};
ghost use Rattle.redl_tree.specs.Decisions.Packages.{stories};
ghost use Rattle.redl_tree.specs.Model.View.{Element};
ghost use Rattle.redl_opc.specs.Parts.{part_name};
ghost use Rattle.redl_opc.specs.Shape.{refusal, parts_of};
ghost use Rattle.redl_opc.specs.Stories.{part_stories, IsStoryOfPart};

/// The stories of a package are those of its parts, in the order of the parts: to look for elements with the name and the
/// ancestors of a story's root, or to ask each part for its story, gives the same ones.
pub fn stories_are_of_parts()
    ensures { (nodes : Nodes) → refusal nodes ≡ None → part_stories nodes ≡ stories nodes }
{}

/// Each story of a package is that of a part, which has a number and a name. A `Package` gives both: its stories by number,
/// and the names, which are UTF-8.
pub fn each_story_has_a_part()
    ensures { (nodes : Nodes) (found : Element) → refusal nodes ≡ None → Contains (stories nodes) found
        → (number : ℕ) × (name : List ℕ) × IsStoryOfPart nodes found number name }
{}

/// Numbering the revisions of a package keeps its shape, how many parts it has, and their names.
pub fn numbering_keeps_parts()
    ensures shape { (value : Value) (nodes : Nodes) → refusal (numbered_package_by value nodes) ≡ refusal nodes }
    ensures count { (value : Value) (nodes : Nodes) → length (parts_of (numbered_package_by value nodes)) ≡ length (parts_of nodes) }
    ensures names { (value : Value) (nodes : Nodes) (number : ℕ) → part_name (numbered_package_by value nodes) number ≡ part_name nodes number }
{}
