//! Laws of all texts.

ghost use Rattle.std.specs.Prelude.{◌≡◌, ℕ, List};
ghost use Rattle.redl_grammar.specs.Pieces.{Piece, Stands};
ghost use Rattle.redl_grammar.specs.declared.section.Section.{Section};

/// No bytes begin with two different pieces.
pub fn one_piece()
    ensures { (place : Section) (bytes : List ℕ) (p q : Piece) (x y : List ℕ) → Stands place bytes p x → Stands place bytes q y → (p ≡ q) × (x ≡ y) }
{}
