//! Two visitors in one walk.

ghost use Rattle.redl_visit.specs.Pairs.{both_rule, both_needs, both_stops};

use crate::ancestors::Summary;
use crate::element::Element;
use crate::visit::Visitor;

/// Two visitors as one, for one walk. At each element `first` is called before `second`, and the first `Err` of either ends the walk.
#[derive(Drop)]
pub struct Both<A, B> {
    /// The visitor that is called first.
    pub first: A,
    /// The other one.
    pub second: B,
}

impl<E: Element, H: Summary<E>, A: Visitor<E, H>, B: Visitor<E, H, Error = A::Error>> Visitor<E, H>
    for Both<A, B> {
    type Error = A::Error;

    type Own = (A::Own, B::Own);

    ghost State = { A.State × B.State };

    ghost state = { λ it. (A.state it.first, B.state it.second) };

    ghost rule = { both_rule A.rule B.rule };

    ghost needs = { both_needs A.needs B.needs };

    ghost stops = { both_stops A.rule A.stops B.stops };

    #[inline(always)]
    fn enter(
        &mut self,
        elem: &E,
        here: &H,
        inner: &Option<H>,
        own: &(A::Own, B::Own),
    ) -> Result<(A::Own, B::Own), A::Error> {
        let first = self.first.enter(elem, here, inner, &own.0)?;
        let second = self.second.enter(elem, here, inner, &own.1)?;
        Ok((first, second))
    }

    #[inline(always)]
    fn leave(&mut self, elem: &E, here: &H, below: &(A::Own, B::Own)) -> Result<(), A::Error> {
        self.first.leave(elem, here, &below.0)?;
        self.second.leave(elem, here, &below.1)
    }

    #[inline(always)]
    #[tactic(auto, using(crate::proofs::PairLaws::visited_both, crate::proofs::PairLaws::needs_first, crate::proofs::PairLaws::needs_second))]
    fn pass(&mut self, plain: &E::Plain, here: &H, own: &(A::Own, B::Own)) {
        self.first.pass(plain, here, &own.0);
        self.second.pass(plain, here, &own.1);
    }
}
