//! What looks at the elements of a story, and the walk that shows them to it.

ghost use Rattle.std.specs.Prelude.{◌≡◌, IfOk, IfErr, OnOk};
ghost use Rattle.redl_tree.specs.Model.IdleTexts.{idle_nodes};
ghost use Rattle.redl_visit.specs.Elements.{NoElement};
ghost use Rattle.redl_visit.specs.Visits.{inner_of, VisitRule, VisitNeeds, visited, visited_element, visited_item, Needs, NeedsElement, NeedsItem};
ghost use Rattle.redl_visit.specs.Stops.{VisitStops, StopsIn, StopsElement, StopsItem};

use crate::ancestors::Summary;
use crate::element::Element;

/// What looks at the elements of a story, in the order of its text. `H` sums up the ancestors of an element.
pub trait Visitor<E: Element, H: Summary<E>> {
    /// Why it stops before the end.
    type Error;

    /// What it hands down to the kids of an element, beside the summary of their ancestors.
    type Own: Copy;

    // Its state, as contracts see it.
    ghost State: { Type 0 };

    ghost state: { Self → Self.State };

    // How its state goes on at each element, and what it needs there.
    ghost rule: { VisitRule H Self.Own Self.State };

    ghost needs: { VisitNeeds H Self.Own Self.State };

    // What is known of its state where it stops.
    ghost stops: { VisitStops H Self.Own Self.State Self.Error };

    /// Looks at an element before its kids, and gives what is handed down to them. It is called once for each element.
    ///
    /// `here` sums up the ancestors of the element, and `own` was handed down to it. `inner` sums up the ancestors of its kids;
    /// it is `None` exactly where no element is among them.
    fn enter(
        &mut self,
        elem: &E,
        here: &H,
        inner: &Option<H>,
        own: &Self::Own,
    ) -> Result<Self::Own, Self::Error>
        requires inner { inner.now ≡ inner_of H.inside (E.tag elem.now) (E.kids elem.now) here.now }
        requires needs { (Self.needs).Enter here.now own.now (E.tag elem.now) (E.kids elem.now) (Self.state self.old) }
        ensures below { IfOk result (λ below. below ≡ (Self.rule).below here.now own.now (E.tag elem.now) (E.kids elem.now) (Self.state self.old)) }
        ensures state { OnOk result (Self.state self.new ≡ (Self.rule).enter here.now own.now (E.tag elem.now) (E.kids elem.now) (Self.state self.old)) }
        ensures stops { IfErr result (λ error. (Self.stops).Enter here.now own.now (E.tag elem.now) (E.kids elem.now) (Self.state self.old) (Self.state self.new) error) };

    /// Looks at an element after its kids, once for each element. `below` is what `enter` gave for it.
    fn leave(&mut self, elem: &E, here: &H, below: &Self::Own) -> Result<(), Self::Error>
        requires needs { (Self.needs).Leave here.now below.now (E.tag elem.now) (E.kids elem.now) (Self.state self.old) }
        ensures state { OnOk result (Self.state self.new ≡ (Self.rule).leave here.now below.now (E.tag elem.now) (E.kids elem.now) (Self.state self.old)) }
        ensures stops { IfErr result (λ error. (Self.stops).Leave here.now below.now (E.tag elem.now) (E.kids elem.now) (Self.state self.old) (Self.state self.new) error) };

    /// Passes over idle elements among the kids of an element, and over all below them.
    fn pass(&mut self, plain: &E::Plain, here: &H, own: &Self::Own)
        requires needs { Needs H.inside Self.rule Self.needs here.now own.now (idle_nodes (E.text plain.now)) (Self.state self.old) }
        ensures state { Self.state self.new ≡ visited H.inside Self.rule here.now own.now (idle_nodes (E.text plain.now)) (Self.state self.old) };
}

/// Shows a visitor all elements below this one. `inner` sums up the ancestors of its kids, and `below` is handed down to them.
///
/// The first `Err` of the visitor ends the walk.
#[cycle(visit)]
pub fn visit_kids<E: Element, H: Summary<E>, V: Visitor<E, H>>(
    elem: &E,
    inner: &H,
    below: &V::Own,
    visitor: &mut V,
) -> Result<(), V::Error>
    requires needs { Needs H.inside V.rule V.needs inner.now below.now (E.kids elem.now) (V.state visitor.old) }
    ensures state { OnOk result (V.state visitor.new ≡ visited H.inside V.rule inner.now below.now (E.kids elem.now) (V.state visitor.old)) }
    ensures stops { IfErr result (λ error. StopsIn H.inside V.rule V.stops inner.now below.now (E.kids elem.now) (V.state visitor.old) (V.state visitor.new) error) }
{
    for node in elem.nodes() {
        visit_node(node, inner, below, visitor)?;
    }
    Ok(())
}

// Shows a visitor the element that a node is, and all elements below it.
#[cycle(visit)]
fn visit_node<E: Element, H: Summary<E>, V: Visitor<E, H>>(
    node: &E::Node,
    here: &H,
    own: &V::Own,
    visitor: &mut V,
) -> Result<(), V::Error>
    requires needs { NeedsItem H.inside V.rule V.needs here.now own.now (E.item node.now) (V.state visitor.old) }
    ensures state { OnOk result (V.state visitor.new ≡ visited_item H.inside V.rule here.now own.now (E.item node.now) (V.state visitor.old)) }
    ensures stops { IfErr result (λ error. StopsItem H.inside V.rule V.stops here.now own.now (E.item node.now) (V.state visitor.old) (V.state visitor.new) error) }
{
    match E::element(node) {
        Some(elem) => visit_elem(elem, here, own, visitor),
        None => {
            pass_node(node, here, own, visitor);
            Ok(())
        }
    }
}

// Lets a visitor pass over the idle elements that a node is, if it is their text.
#[inline(always)]
#[tactic(auto, using(crate::proofs::VisitLaws::no_item))]
fn pass_node<E: Element, H: Summary<E>, V: Visitor<E, H>>(
    node: &E::Node,
    here: &H,
    own: &V::Own,
    visitor: &mut V,
)
    requires none { NoElement (E.item node.now) }
    requires needs { NeedsItem H.inside V.rule V.needs here.now own.now (E.item node.now) (V.state visitor.old) }
    ensures state { V.state visitor.new ≡ visited_item H.inside V.rule here.now own.now (E.item node.now) (V.state visitor.old) }
{
    if let Some(plain) = E::plain(node) {
        visitor.pass(plain, here, own);
    }
}

// Shows a visitor an element and all elements below it. `here` sums up the ancestors of the element, and `own` is handed down to it.
#[cycle(visit)]
fn visit_elem<E: Element, H: Summary<E>, V: Visitor<E, H>>(
    elem: &E,
    here: &H,
    own: &V::Own,
    visitor: &mut V,
) -> Result<(), V::Error>
    requires needs { NeedsElement H.inside V.rule V.needs here.now own.now (E.tag elem.now) (E.kids elem.now) (V.state visitor.old) }
    ensures state { OnOk result (V.state visitor.new ≡ visited_element H.inside V.rule here.now own.now (E.tag elem.now) (E.kids elem.now) (V.state visitor.old)) }
    ensures stops { IfErr result (λ error. StopsElement H.inside V.rule V.stops here.now own.now (E.tag elem.now) (E.kids elem.now) (V.state visitor.old) (V.state visitor.new) error) }
{
    let inner = here.inner(elem);
    let below = visitor.enter(elem, here, &inner, own)?;
    visit_inner(elem, here, inner, &below, visitor)?;
    visitor.leave(elem, here, &below)
}

// Shows a visitor all elements below this one, where `inner` is not `None`. There are none otherwise.
#[cycle(visit)]
#[inline(always)]
#[tactic(auto, using(crate::proofs::VisitLaws::some_inner, crate::proofs::VisitLaws::none_inner))]
fn visit_inner<E: Element, H: Summary<E>, V: Visitor<E, H>>(
    elem: &E,
    here: &H,
    inner: Option<H>,
    below: &V::Own,
    visitor: &mut V,
) -> Result<(), V::Error>
    requires inner { inner ≡ inner_of H.inside (E.tag elem.now) (E.kids elem.now) here.now }
    requires needs { Needs H.inside V.rule V.needs (H.inside (E.tag elem.now) here.now) below.now (E.kids elem.now) (V.state visitor.old) }
    ensures state { OnOk result (V.state visitor.new ≡ visited H.inside V.rule (H.inside (E.tag elem.now) here.now) below.now (E.kids elem.now) (V.state visitor.old)) }
    ensures stops { IfErr result (λ error. StopsIn H.inside V.rule V.stops (H.inside (E.tag elem.now) here.now) below.now (E.kids elem.now) (V.state visitor.old) (V.state visitor.new) error) }
{
    match inner {
        Some(inner) => visit_kids(elem, &inner, below, visitor),
        None => Ok(()),
    }
}
