//! What holds of the paragraphs that are put together, as statements of the definition alone.

ghost use Rattle.std.specs.Prelude.{◌≡◌, ◌∷◌, ◌&&◌, ◌||◌, ◌++◌, List, Bool, true, false};
ghost use Rattle.redl_sound.specs.Groups.{BeginsGroup, are_before_last, one_para, own_tag};
ghost use Rattle.redl_tree.specs.Decisions.Groups.{GroupPiece, para, thin, thick, grouped, has_thick, joins, unjoined_para};
ghost use Rattle.redl_tree.specs.Model.Nodes.{Nodes, Tag, ◌⊕◌};

/// What `redl_paras::group` makes of a list of pieces, group by group from the left (ECMA-376 Part 1, 17.3.1.29, 17.13.5).
///
/// A node that is no paragraph stays where nothing is joined round it, and so does a paragraph that joins no later one. Several paragraphs,
/// all but the last cut, become one in one piece: it has the tag and the properties of the last one, and then what all of them and the
/// nodes between them hold, in their order and without properties. Wherever a paragraph joins a later one such a group begins.
pub fn groups_are_in_one_piece()
    ensures thin { (followed : Bool) (nodes : Nodes) (rest : List GroupPiece) → grouped followed (thin nodes ∷ rest) ≡ nodes ⊕ grouped followed rest }
    ensures thick { (followed : Bool) (nodes : Nodes) (rest : List GroupPiece) → grouped followed (thick nodes ∷ rest) ≡ nodes ⊕ grouped followed rest }
    ensures alone { (followed : Bool) (tag : Tag) (cut : Bool) (kids : Nodes) (rest : List GroupPiece) → joins (para tag cut kids) rest ≡ false
        → grouped followed (para tag cut kids ∷ rest) ≡ unjoined_para (cut && (has_thick rest || followed)) tag kids ⊕ grouped followed rest }
    ensures several { (followed : Bool) (first : Tag) (first_kids : Nodes) (between : List GroupPiece) (tag : Tag) (cut : Bool) (kids : Nodes) (rest : List GroupPiece)
        → are_before_last between ≡ true → joins (para tag cut kids) rest ≡ false
        → grouped followed (para first true first_kids ∷ (between ++ para tag cut kids ∷ rest))
        ≡ unjoined_para (cut && (has_thick rest || followed)) (own_tag tag) (one_para (para first true first_kids ∷ between) kids) ⊕ grouped followed rest }
    ensures begins { (tag : Tag) (cut : Bool) (kids : Nodes) (rest : List GroupPiece) → joins (para tag cut kids) rest ≡ true → BeginsGroup cut rest }
{}
