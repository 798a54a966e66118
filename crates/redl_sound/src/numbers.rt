//! What holds of the numbers of every package.

ghost use Rattle.std.specs.Prelude.{◌≡◌, None};
ghost use Rattle.redl_index.specs.Numbers.{numbered_package};
ghost use Rattle.redl_index.specs.Revisions.{revisions_of};
ghost use Rattle.redl_sound.specs.Names.{NumbersName};
ghost use Rattle.redl_opc.specs.Shape.{refusal};
ghost use Rattle.redl_tree.specs.Model.Nodes.{Nodes};

/// In a package with numbers an element with the number k belongs to the k-th revision: they agree in the kind, the author, the
/// moment and the part, which for a paired move are those of its source's start. Each revision has such an element, and numbers
/// rise with the part and, in a part, with the first position.
pub fn numbers_name_revisions()
    ensures numbered { (nodes : Nodes) → refusal nodes ≡ None → NumbersName (numbered_package nodes) (revisions_of nodes) }
    ensures indexed { (nodes : Nodes) → refusal nodes ≡ None → numbered_package nodes ≡ nodes → NumbersName nodes (revisions_of nodes) }
{}
