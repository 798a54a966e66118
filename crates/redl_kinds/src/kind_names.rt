//! The names of the kinds of revisions.

ghost use Rattle.std.specs.Prelude.{◌≡◌, ◌↔◌, All, IsTrue, Some, filter, find, length};
ghost use Rattle.std.specs.Option.{option_copied};
ghost use Rattle.redl_kinds.specs.Kinds.{is_named, is_same_kind};
ghost use Rattle.redl_kinds.specs.KindNames.{kind_name, is_name_of};
ghost use Rattle.redl_kinds.specs.declared.rev_kind.RevKind.{RevKind};

use crate::rev_kind::RevKind;
use redl_tree::{Prop, Trace};

/// The kinds that have a name, in the order of their table. Each of them is here once, and no other kind is (`kinds_are_listed_once`).
pub static KINDS: [RevKind; 20] = [
    RevKind::Content(Trace::Ins),
    RevKind::Content(Trace::Del),
    RevKind::Content(Trace::From),
    RevKind::Content(Trace::To),
    RevKind::Move,
    RevKind::Mark(Trace::Ins),
    RevKind::Mark(Trace::Del),
    RevKind::Mark(Trace::From),
    RevKind::Mark(Trace::To),
    RevKind::Row(Trace::Ins),
    RevKind::Row(Trace::Del),
    RevKind::Cell(Trace::Ins),
    RevKind::Cell(Trace::Del),
    RevKind::Change(Prop::Run),
    RevKind::Change(Prop::Para),
    RevKind::Change(Prop::Sect),
    RevKind::Change(Prop::Table),
    RevKind::Change(Prop::Except),
    RevKind::Change(Prop::Row),
    RevKind::Change(Prop::Cell),
];

impl RevKind {
    /// The name of the kind in listings and on the command line. Rows and cells that are moved have none, and no revision is of
    /// such a kind.
    pub fn name(self) -> &'static str
        requires { IsTrue (is_named self) }
        ensures { result.now ≡ kind_name self }
    {
        self.name_or_nothing()
    }

    /// The kind with this name. `None` exactly where no kind has the name.
    pub fn named(name: &[u8]) -> Option<RevKind>
        ensures { (kind : RevKind) → (result ≡ Some kind) ↔ (IsTrue (is_named kind) × (kind_name kind ≡ name.now)) }
    {
        first_with_name(&KINDS, name).copied()
    }

    // The name, or the empty text for a kind without one.
    fn name_or_nothing(self) -> &'static str
        ensures { result.now ≡ kind_name self }
    {
        match self {
            RevKind::Content(trace) => content_name(trace),
            RevKind::Move => "move",
            RevKind::Mark(trace) => mark_name(trace),
            RevKind::Row(Trace::Ins) => "row-ins",
            RevKind::Row(Trace::Del) => "row-del",
            RevKind::Cell(Trace::Ins) => "cell-ins",
            RevKind::Cell(Trace::Del) => "cell-del",
            RevKind::Change(prop) => change_name(prop),
            RevKind::Row(_) | RevKind::Cell(_) => "",
        }
    }
}

// The first of these kinds that has the name.
fn first_with_name<'a>(kinds: &'a [RevKind], name: &[u8]) -> Option<&'a RevKind>
    ensures { option_copied result ≡ find (is_name_of name.now) kinds.now }
{
    kinds
        .iter()
        .find(|kind| kind.name_or_nothing().as_bytes() == name)
}

fn content_name(trace: Trace) -> &'static str
    ensures { result.now ≡ kind_name (RevKind.Content trace) }
{
    match trace {
        Trace::Ins => "ins",
        Trace::Del => "del",
        Trace::From => "move-from",
        Trace::To => "move-to",
    }
}

fn mark_name(trace: Trace) -> &'static str
    ensures { result.now ≡ kind_name (RevKind.Mark trace) }
{
    match trace {
        Trace::Ins => "mark-ins",
        Trace::Del => "mark-del",
        Trace::From => "mark-from",
        Trace::To => "mark-to",
    }
}

fn change_name(prop: Prop) -> &'static str
    ensures { result.now ≡ kind_name (RevKind.Change prop) }
{
    match prop {
        Prop::Run => "run-props",
        Prop::Para => "para-props",
        Prop::Sect => "sect-props",
        Prop::Table => "table-props",
        Prop::Except => "except-props",
        Prop::Row => "row-props",
        Prop::Cell => "cell-props",
    }
}

/// Each kind that has a name is in `KINDS` once, and no other kind is in it.
#[tactic(auto, using(crate::proofs::KindNameLaws::listed_once))]
pub fn kinds_are_listed_once()
    ensures once { (kind : RevKind) → IsTrue (is_named kind) → length (filter (is_same_kind kind) KINDS) ≡ 1 }
    ensures others { All (λ kind. IsTrue (is_named kind)) KINDS }
{}

/// No two kinds have the same name.
pub fn one_kind_for_a_name()
    ensures { (kind other : RevKind) → IsTrue (is_named kind) → IsTrue (is_named other) → kind_name kind ≡ kind_name other → kind ≡ other }
{}
