//! What holds of every text from outside, as a statement of the definitions alone.

ghost use Rattle.std.specs.Prelude.{◌≡◌, ℕ, List, true};
ghost use Rattle.redl_html.specs.Escaping.{is_safe};
ghost use Rattle.redl_html.specs.Pieces.{outside, piece_text};

/// No text from outside becomes markup or ends a quoted value: what is written of it has no `<`, no `>` and no quote, and a `&` only
/// where a reference of the six characters begins.
///
/// A page is a list of pieces, and a text from outside can stand in a piece of this kind alone: the others hold constants of the
/// definitions and numbers.
pub fn texts_from_outside_are_safe()
    ensures { (text : List ℕ) → is_safe (piece_text (outside text)) ≡ true }
{}
