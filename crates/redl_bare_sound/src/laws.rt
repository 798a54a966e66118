//! What holds of every bare text, as statements of the definitions alone.

ghost use Rattle.std.specs.Prelude.{◌≡◌, List, map};
ghost use Rattle.redl_tree.specs.Model.Nodes.{Nodes};
ghost use Rattle.redl_bare.specs.Units.{BareUnit};
ghost use Rattle.redl_bare.specs.Package.{package_units};
ghost use Rattle.redl_bare.specs.BareText.{units_text, bare_text};
ghost use Rattle.redl_bare_sound.specs.Said.{AreNamed, said_unit};

/// Two lists of units with the same text are the same units with the same marks, their references read. And two packages with the
/// same bare text have the same units with the same marks.
pub fn bare_text_is_injective()
    ensures units { (xs ys : List BareUnit) → AreNamed xs → AreNamed ys → units_text xs ≡ units_text ys → map said_unit xs ≡ map said_unit ys }
    ensures packages { (one other : Nodes) → bare_text one ≡ bare_text other → map said_unit (package_units one) ≡ map said_unit (package_units other) }
{}
