//! Laws of all texts.

ghost use Rattle.std.specs.Prelude.{◌≡◌, ℕ, List, map};
ghost use Rattle.redl_markup.specs.Attributes.{attributes_of};
ghost use Rattle.redl_grammar.specs.Tails.{IsTail, named_value};

/// The attributes that `next_attribute` gives for a legal tail are all of its attributes, in order.
pub fn attributes_are_listed()
    ensures { (tail : List ℕ) (legal : IsTail tail) → attributes_of tail ≡ map named_value legal.attributes }
{}
