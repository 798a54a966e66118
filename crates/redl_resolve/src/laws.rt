//! What holds of every pass, as statements of the definitions alone: the two laws of a package, and what its parts keep.

ghost use Rattle.std.specs.List.{list_all};
ghost use Rattle.std.specs.Prelude.{◌≡◌, ℕ, List, Bool, true, false};
ghost use Rattle.redl_resolve.specs.Keeps.{KeepsText, KeepsRules};
ghost use Rattle.redl_tree.specs.Decisions.Beside.{bytes_beside, bytes_of_each, are_named};
ghost use Rattle.redl_tree.specs.Decisions.Groups.{GroupPiece, grouped};
ghost use Rattle.redl_tree.specs.Model.Kids.{some_element};
ghost use Rattle.redl_tree.specs.Revisions.Markers.{Value};
ghost use Rattle.redl_tree.specs.Model.Nodes.{Tag, Nodes};
ghost use Rattle.redl_tree.specs.Revisions.Numbers.{IsIndexed};
ghost use Rattle.redl_tree.specs.Decisions.Packages.{pass_package};
ghost use Rattle.redl_tree.specs.Decisions.Restored.{restored};
ghost use Rattle.redl_tree.specs.Rules.Sound.{tests, is_sound};
ghost use Rattle.redl_tree.specs.Decisions.Tables.{own, has_own, cell_is_cut, row_goes, rows_go};
ghost use Rattle.redl_tree.specs.declared.kinds.Prop.{Prop};
ghost use Rattle.redl_tree.specs.declared.kinds.Say.{Say};
ghost use Rattle.redl_tree.specs.declared.lists.Reach.TheVariants.{Direct};

/// The pass keeps the text that survives, byte for byte and in its order.
pub fn texts_survive()
    ensures { (says : List Say) (given : Nodes) → KeepsText says given (pass_package says given) }
{}

/// Each of the nine rules of structure holds again after a pass over a sound package.
pub fn rules_hold_again()
    ensures { (says : List Say) (given : Nodes) → KeepsRules given (pass_package says given) }
{}

/// A pass over a sound package leaves a sound one.
pub fn packages_stay_sound()
    ensures { (value : Value) (has_id declares : List ℕ → Bool) (says : List Say) (given : Nodes)
        → IsIndexed value given → is_sound (tests has_id declares) given ≡ true
        → is_sound (tests has_id declares) (pass_package says given) ≡ true }
{}

/// Restored kids hold only what the present or the former ones hold. So where neither holds a change, none is restored.
pub fn restoring_adds_nothing()
    ensures { (test : Tag → Bool) (prop : Prop) (current former : Nodes)
        → some_element test current ≡ false → some_element test former ≡ false
        → some_element test (restored prop current former) ≡ false }
{}

/// A row that has cells and stays has a cell that stays.
pub fn rows_keep_a_cell()
    ensures { (says : List Say) (kids : Nodes) → has_own "tc" Direct kids ≡ true → row_goes says kids ≡ false
        → list_all (cell_is_cut says) (own "tc" Direct kids) ≡ false }
{}

/// A table that has rows and stays has a row that stays.
pub fn tables_keep_a_row()
    ensures { (says : List Say) (kids : Nodes) → has_own "tr" Direct kids ≡ true → rows_go says Direct kids ≡ false
        → list_all (row_goes says) (own "tr" Direct kids) ≡ false }
{}

/// Joined paragraphs keep the bytes outside their properties, in their order.
pub fn groups_keep_bytes()
    ensures { (followed : Bool) (pieces : List GroupPiece) → are_named pieces ≡ true
        → bytes_beside (grouped followed pieces) ≡ bytes_of_each pieces }
{}
