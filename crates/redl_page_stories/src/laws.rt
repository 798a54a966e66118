//! What holds of the stories of every page, as a statement of the definitions alone.

ghost use Rattle.std.specs.Prelude.{◌≡◌, ℕ, List, true, None};
ghost use Rattle.std.specs.List.{list_any};
ghost use Rattle.redl_tree.specs.Decisions.Packages.{stories};
ghost use Rattle.redl_tree.specs.Model.Nodes.{Nodes};
ghost use Rattle.redl_tree.specs.Revisions.Markers.{Value};
ghost use Rattle.redl_tree.specs.Revisions.Numbers.{IsIndexed};
ghost use Rattle.redl_opc.specs.Shape.{refusal};
ghost use Rattle.redl_index.specs.declared.revision.Revision.{Revision};
ghost use Rattle.redl_page_stories.specs.Document.{document_pieces};
ghost use Rattle.redl_page_stories.specs.Signs.{has_element, has_member};

/// Each member of a revision in a package whose revisions are numbered has an element with the number of the revision.
pub fn each_member_has_an_element()
    ensures { (shown : List ℕ → List ℕ) (revisions : List Revision) (value : Value) (nodes : Nodes) (rev : ℕ) → refusal nodes ≡ None
        → IsIndexed value nodes → list_any (λ story. has_member rev story.kids) (stories nodes) ≡ true
        → has_element rev (document_pieces shown revisions nodes) ≡ true }
{}
