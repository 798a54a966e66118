//! The visitor that tells which rules hold in a story.

ghost use Rattle.std.specs.Prelude.{◌≡◌, ◌∷◌, []};
ghost use Rattle.redl_tree.specs.Model.View.{tag_of, kids_of};
ghost use Rattle.redl_tree.specs.Roles.Arounds.{around_inside};
ghost use Rattle.redl_visit.specs.Summaries.{ancestors_inside};
ghost use Rattle.redl_visit.specs.Visits.{inner_of};
ghost use Rattle.redl_rules.specs.Keeping.{kept_here as kept_of, all_hold};
ghost use Rattle.redl_rules.specs.Rounds.{round_of};
ghost use Rattle.redl_rules.specs.Visiting.{kept_by_round};

use crate::kept::Kept;
use crate::round::Round;
use crate::rules::{
    keeps_1, keeps_2, keeps_3, keeps_4, keeps_5, keeps_6, keeps_7, keeps_8, keeps_9,
};
use redl_tree::{Around, Elem, Kind, Plain};
use redl_visit::{Ancestors, Visitor};
use std::marker::PhantomData;

/// Tells which rules hold of the elements of a story. It never stops, and so goes beside any visitor that stops with an `X`.
#[derive(Drop)]
pub struct Keeper<X> {
    /// The rules that hold of all elements so far.
    pub kept: Kept,
    error: PhantomData<X>,
}

impl<X> Keeper<X> {
    /// Where a visit of the kids of a story's root begins: what the rules say of the root by itself, and what is handed down
    /// to its kids.
    pub fn at_root(root: &Elem) -> (Keeper<X>, Round)
        ensures kept { result.0.kept ≡ kept_of [] (tag_of root.now) (kids_of root.now) }
        ensures round { result.1 ≡ round_of (tag_of root.now ∷ []) }
    {
        let here = Ancestors::none();
        let inner = here.inside(root);
        let round = Round::top();
        let kind = here.around.role(root);
        let keeper = Keeper {
            kept: kept_here(root, kind, here.around, inner.around, round),
            error: PhantomData,
        };
        (keeper, round.inside(root, kind, &inner))
    }
}

impl<'a, X> Visitor<Elem<'a>, Ancestors> for Keeper<X> {
    type Error = X;

    type Own = Round;

    ghost use Rattle.redl_rules.specs.declared.kept.Kept.{Kept};
    ghost use Rattle.redl_rules.specs.Visiting.{keeper_rule};
    ghost use Rattle.redl_visit.specs.Visits.{no_needs};
    ghost use Rattle.redl_visit.specs.Stops.{any_stops};

    ghost State = { Kept };

    ghost state = { λ it. it.kept };

    ghost rule = { keeper_rule };

    ghost needs = { no_needs };

    ghost stops = { any_stops };

    #[inline(always)]
    fn enter(
        &mut self,
        elem: &Elem<'a>,
        here: &Ancestors,
        inner: &Option<Ancestors>,
        own: &Round,
    ) -> Result<Round, X> {
        let kind = here.around.role(elem);
        let around = around_inside(elem, here, *inner);
        if !keeps_all(elem, kind, here.around, around, *own) {
            self.kept = self
                .kept
                .and(kept_here(elem, kind, here.around, around, *own));
        }
        Ok(own.below(elem, kind, here, *inner))
    }

    #[inline(always)]
    fn leave(&mut self, _elem: &Elem<'a>, _here: &Ancestors, _below: &Round) -> Result<(), X> {
        Ok(())
    }

    // All rules hold of idle elements.
    #[inline(always)]
    #[tactic(auto, using(crate::proofs::PassLaws::passed))]
    fn pass(&mut self, _plain: &Plain<'a>, _here: &Ancestors, _own: &Round) {}
}

// The `Around` of the kids of an element, whether or not an element is among them.
#[inline(always)]
fn around_inside(elem: &Elem, here: &Ancestors, inner: Option<Ancestors>) -> Around
    requires { inner ≡ inner_of ancestors_inside (tag_of elem.now) (kids_of elem.now) here.now }
    ensures { result ≡ around_inside (tag_of elem.now) here.now.around }
{
    match inner {
        Some(inner) => inner.around,
        None => here.around.inside(elem),
    }
}

// Whether all rules hold of an element by itself, as they mostly do: then no answers are put together.
fn keeps_all(elem: &Elem, kind: Kind, here: Around, inner: Around, round: Round) -> bool
    ensures { result ≡ all_hold (kept_by_round here inner round kind (tag_of elem.now) (kids_of elem.now)) }
{
    keeps_1(elem, inner)
        && keeps_2(elem, inner)
        && keeps_3(elem, kind, here, round)
        && keeps_4(elem, inner)
        && keeps_5(elem, inner)
        && keeps_6(elem, inner, here)
        && keeps_7(elem, here)
        && keeps_8(elem, round)
        && keeps_9(elem, kind, inner)
}

// Which rules hold of an element by itself. `kind` is its role, `here` and `round` sum up its ancestors, and `inner` those of its
// kids.
fn kept_here(elem: &Elem, kind: Kind, here: Around, inner: Around, round: Round) -> Kept
    ensures { result ≡ kept_by_round here inner round kind (tag_of elem.now) (kids_of elem.now) }
{
    Kept {
        rules: [
            keeps_1(elem, inner),
            keeps_2(elem, inner),
            keeps_3(elem, kind, here, round),
            keeps_4(elem, inner),
            keeps_5(elem, inner),
            keeps_6(elem, inner, here),
            keeps_7(elem, here),
            keeps_8(elem, round),
            keeps_9(elem, kind, inner),
        ],
    }
}
