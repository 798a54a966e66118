//! A law of every legal tail of a tag.

ghost use Rattle.std.specs.Prelude.{◌≡◌, ℕ, List, find};
ghost use Rattle.std.specs.Option.{option_map};
ghost use Rattle.redl_markup.specs.Decoding.{decoded_value};
ghost use Rattle.redl_grammar.specs.Tails.{IsTail, named_value};
ghost use Rattle.redl_stamp.specs.Attribute.{has_local_name, attribute_value};

/// The value that a legal tail has under a local name is that of its first attribute with this name that is no declaration.
pub fn value_of_the_first()
    ensures { (tail local : List ℕ) (legal : IsTail tail)
        → attribute_value tail local
        ≡ option_map (λ attribute. decoded_value attribute.value)
        (find (λ attribute. has_local_name local (named_value attribute)) legal.attributes) }
{}
