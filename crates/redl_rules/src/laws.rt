//! What holds of the rules in every package, as a statement of the definitions alone.

ghost use Rattle.std.specs.Prelude.{◌≡◌};
ghost use Rattle.redl_tree.specs.Model.Nodes.{Nodes};
ghost use Rattle.redl_tree.specs.Revisions.Markers.{Value};
ghost use Rattle.redl_tree.specs.Revisions.Numbers.{numbered_package_by};
ghost use Rattle.redl_rules.specs.Attributes.{broken_rule};

/// A numbered package breaks the same rule as the original, or none where that breaks none.
pub fn numbering_keeps_rules()
    ensures { (value : Value) (nodes : Nodes) → broken_rule (numbered_package_by value nodes) ≡ broken_rule nodes }
{}
