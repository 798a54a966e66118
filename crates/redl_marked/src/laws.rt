//! What holds of the marked text of every package, as a statement of the definitions alone.

ghost use Rattle.std.specs.Prelude.{◌≡◌, None};
ghost use Rattle.std.specs.List.{All};
ghost use Rattle.redl_tree.specs.Model.Nodes.{Tag, Nodes};
ghost use Rattle.redl_tree.specs.Revisions.Markers.{Value};
ghost use Rattle.redl_tree.specs.Revisions.Numbers.{IsIndexed};
ghost use Rattle.redl_opc.specs.Shape.{refusal};
ghost use Rattle.redl_marked.specs.MarkedText.{marked_text};
ghost use Rattle.redl_marked.specs.Members.{HasPart, members_of, member_sign};

/// The sign of each member of a revision, which has the revision's number, is a part of the marked text of an indexed package.
/// So no revision that has a member is left out.
pub fn each_member_has_its_sign()
    ensures { (value : Value) (nodes : Nodes) → refusal nodes ≡ None → IsIndexed value nodes
        → All (λ (tag : Tag). HasPart (member_sign tag) (marked_text nodes)) (members_of nodes) }
{}
