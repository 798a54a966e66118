//! What labels the elements of a story, and the walk that sets the labels.

ghost use Rattle.std.specs.Prelude.{◌≡◌};
ghost use Rattle.redl_tree.specs.Model.View.{nodes_of, item_of, tag_of, kids_of, held_of, spaced_of};
ghost use Rattle.redl_tree.specs.Model.IdleTexts.{idle_nodes};
ghost use Rattle.redl_tree.specs.Roles.Arounds.{around_inside};
ghost use Rattle.redl_visit.specs.Visits.{inner_of, visited, visited_element, visited_item, Needs, NeedsElement, NeedsItem};
ghost use Rattle.redl_visit.specs.Labelling.{LabelRule, LabelNeeds, LeavesIdle, visit_of, needs_of, with_label, relabelled, relabelled_kids, relabelled_item};

use crate::ancestors::Summary;
use redl_tree::{Around, Body, Elem, Kind, Node, Plain, Spaced};

/// The kind of an element and the number of its revision.
#[derive(Clone, Copy, Debug, PartialEq, Eq)]
pub struct Label {
    /// The kind of the element.
    pub kind: Kind,
    /// The number of its revision, or 0 for none.
    pub rev: u32,
}

/// What gives labels to the elements of a story, in the order of its text.
pub trait Labeller {
    /// What it hands down to the kids of an element, beside the summary of their ancestors.
    type Own: Copy;

    ghost use Rattle.redl_tree.specs.declared.around.Around.{Around};

    // Its state, as contracts see it.
    ghost State: { Type 0 };

    ghost state: { Self → Self.State };

    // How its state goes on at each element, with the element's label, and what it needs there.
    ghost rule: { LabelRule Around Self.Own Self.State };

    ghost needs: { LabelNeeds Around Self.Own Self.State };

    // Idle elements get the label of an element that is in no revision.
    ghost leaves: { LeavesIdle Self.rule };

    /// Looks at an element before its kids, and gives what is handed down to them and the element's label. It is called once for
    /// each element.
    ///
    /// `here` sums up the ancestors of the element, and `own` was handed down to it. `inner` sums up the ancestors of its kids;
    /// it is `None` exactly where no element is among them.
    fn enter(
        &mut self,
        elem: &Elem,
        here: Around,
        inner: &Option<Around>,
        own: Self::Own,
    ) -> (Self::Own, Label)
        requires inner { inner.now ≡ inner_of around_inside (tag_of elem.now) (kids_of elem.now) here }
        requires needs { (Self.needs).Enter here own (tag_of elem.now) (kids_of elem.now) (Self.state self.old) }
        ensures below { result.0 ≡ (Self.rule).below here own (tag_of elem.now) (kids_of elem.now) (Self.state self.old) }
        ensures label { result.1 ≡ (Self.rule).label here own (tag_of elem.now) (kids_of elem.now) (Self.state self.old) }
        ensures state { Self.state self.new ≡ (Self.rule).enter here own (tag_of elem.now) (kids_of elem.now) (Self.state self.old) };

    /// Is called after the kids of each element.
    fn leave(&mut self)
        requires needs { (Self.needs).Leave (Self.state self.old) }
        ensures state { Self.state self.new ≡ (Self.rule).leave (Self.state self.old) };

    /// Passes over idle elements among the kids of an element, and over all below them.
    fn pass(&mut self, plain: &Plain, here: Around, own: Self::Own)
        requires needs { Needs around_inside (visit_of Self.rule) (needs_of Self.needs) here own (idle_nodes plain.now) (Self.state self.old) }
        ensures state { Self.state self.new ≡ visited around_inside (visit_of Self.rule) here own (idle_nodes plain.now) (Self.state self.old) };
}

/// Sets the labels of all elements below this one. `inner` sums up the ancestors of its kids, and `below` is handed down to them.
#[cycle(labels)]
pub fn label_kids<L: Labeller>(elem: &mut Elem, inner: Around, below: L::Own, labeller: &mut L)
    requires needs { Needs around_inside (visit_of L.rule) (needs_of L.needs) inner below (kids_of elem.old) (L.state labeller.old) }
    ensures tag { tag_of elem.new ≡ tag_of elem.old }
    ensures kids { kids_of elem.new ≡ relabelled around_inside L.rule inner below (kids_of elem.old) (L.state labeller.old) }
    ensures state { L.state labeller.new ≡ visited around_inside (visit_of L.rule) inner below (kids_of elem.old) (L.state labeller.old) }
{
    label_body(&mut elem.body, inner, below, labeller);
}

// Sets the labels of all elements in the body of an element.
#[cycle(labels)]
fn label_body<L: Labeller>(body: &mut Body, here: Around, own: L::Own, labeller: &mut L)
    requires needs { Needs around_inside (visit_of L.rule) (needs_of L.needs) here own (held_of body.old).kids (L.state labeller.old) }
    ensures close { (held_of body.new).close ≡ (held_of body.old).close }
    ensures kids { (held_of body.new).kids ≡ relabelled around_inside L.rule here own (held_of body.old).kids (L.state labeller.old) }
    ensures state { L.state labeller.new ≡ visited around_inside (visit_of L.rule) here own (held_of body.old).kids (L.state labeller.old) }
{
    match body {
        Body::Empty => {}
        Body::Kids(kids) => label_nodes(kids, here, own, labeller),
        Body::Spaced(spaced) => label_spaced(spaced, here, own, labeller),
    }
}

// The same for a body in a box. Apart from `label_body`, since a write through a box in a variant is proved in two steps.
#[cycle(labels)]
fn label_spaced<L: Labeller>(spaced: &mut Box<Spaced>, here: Around, own: L::Own, labeller: &mut L)
    requires needs { Needs around_inside (visit_of L.rule) (needs_of L.needs) here own (spaced_of spaced.old.value).kids (L.state labeller.old) }
    ensures close { (spaced_of spaced.new.value).close ≡ (spaced_of spaced.old.value).close }
    ensures kids { (spaced_of spaced.new.value).kids ≡ relabelled around_inside L.rule here own (spaced_of spaced.old.value).kids (L.state labeller.old) }
    ensures state { L.state labeller.new ≡ visited around_inside (visit_of L.rule) here own (spaced_of spaced.old.value).kids (L.state labeller.old) }
{
    label_nodes(&mut spaced.kids, here, own, labeller);
}

// Sets the labels of all elements among nodes, and below them.
#[cycle(labels)]
fn label_nodes<L: Labeller>(nodes: &mut [Node], here: Around, own: L::Own, labeller: &mut L)
    requires needs { Needs around_inside (visit_of L.rule) (needs_of L.needs) here own (nodes_of nodes.old) (L.state labeller.old) }
    ensures nodes { nodes_of nodes.new ≡ relabelled around_inside L.rule here own (nodes_of nodes.old) (L.state labeller.old) }
    ensures state { L.state labeller.new ≡ visited around_inside (visit_of L.rule) here own (nodes_of nodes.old) (L.state labeller.old) }
{
    for i in 0..nodes.len() {
        label_node(&mut nodes[i], here, own, labeller);
    }
}

// Sets the labels of the element that a node is, and of all elements below it.
#[cycle(labels)]
fn label_node<L: Labeller>(node: &mut Node, here: Around, own: L::Own, labeller: &mut L)
    requires needs { NeedsItem around_inside (visit_of L.rule) (needs_of L.needs) here own (item_of node.old) (L.state labeller.old) }
    ensures node { item_of node.new ≡ relabelled_item around_inside L.rule here own (item_of node.old) (L.state labeller.old) }
    ensures state { L.state labeller.new ≡ visited_item around_inside (visit_of L.rule) here own (item_of node.old) (L.state labeller.old) }
{
    match node {
        Node::Elem(elem) => label_elem(elem, here, own, labeller),
        Node::Bytes(_) => {}
        Node::Plain(plain) => labeller.pass(plain, here, own),
    }
}

// Sets the labels of an element and of all elements below it. `here` sums up the ancestors of the element, and `own` is handed
// down to it.
#[cycle(labels)]
fn label_elem<L: Labeller>(elem: &mut Elem, here: Around, own: L::Own, labeller: &mut L)
    requires needs { NeedsElement around_inside (visit_of L.rule) (needs_of L.needs) here own (tag_of elem.old) (kids_of elem.old) (L.state labeller.old) }
    ensures tag { tag_of elem.new ≡ with_label ((L.rule).label here own (tag_of elem.old) (kids_of elem.old) (L.state labeller.old)) (tag_of elem.old) }
    ensures kids { kids_of elem.new ≡ relabelled_kids around_inside L.rule here own (tag_of elem.old) (kids_of elem.old) (L.state labeller.old) }
    ensures state { L.state labeller.new ≡ visited_element around_inside (visit_of L.rule) here own (tag_of elem.old) (kids_of elem.old) (L.state labeller.old) }
{
    let inner = here.inner(elem);
    let (below, label) = labeller.enter(elem, here, &inner, own);
    label_inner(elem, here, inner, below, labeller);
    labeller.leave();
    elem.set_label(label.kind, label.rev);
}

// Sets the labels of all elements below this one, where `inner` is not `None`. There are none otherwise.
#[cycle(labels)]
#[inline(always)]
#[tactic(auto, using(crate::proofs::VisitLaws::some_inner))]
fn label_inner<L: Labeller>(
    elem: &mut Elem,
    here: Around,
    inner: Option<Around>,
    below: L::Own,
    labeller: &mut L,
)
    requires inner { inner ≡ inner_of around_inside (tag_of elem.old) (kids_of elem.old) here }
    requires needs { Needs around_inside (visit_of L.rule) (needs_of L.needs) (around_inside (tag_of elem.old) here) below (kids_of elem.old) (L.state labeller.old) }
    ensures tag { tag_of elem.new ≡ tag_of elem.old }
    ensures kids { kids_of elem.new ≡ relabelled around_inside L.rule (around_inside (tag_of elem.old) here) below (kids_of elem.old) (L.state labeller.old) }
    ensures state { L.state labeller.new ≡ visited around_inside (visit_of L.rule) (around_inside (tag_of elem.old) here) below (kids_of elem.old) (L.state labeller.old) }
{
    match inner {
        Some(inner) => label_kids(elem, inner, below, labeller),
        None => {}
    }
}
