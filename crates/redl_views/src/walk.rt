//! The walk over the nodes of a story. It puts what the pass of the nodes would show, and makes no tree.
//!
//! What a paragraph shows goes out as it is read; only its newline is in question, and that is due at its end tag. Whether the
//! paragraph joins the next one, or may vanish before a table, depends on the tags of later siblings alone. So the walk looks
//! ahead to the next thick node, and each node is read at most twice. Whether the joined paragraph has content is known only
//! at its end, and the walks answer it. A paragraph that vanishes leaves bytes of a block list, which show nothing, so nothing
//! that was put has to be taken back.

ghost use Rattle.std.specs.Prelude.{◌≡◌, ◌||◌, [], None, true, false, IfOk, if◌then◌else◌};
ghost use Rattle.std.specs.Option.{option_map};
ghost use Rattle.redl_views.specs.Ends.{has_taken as has_taken_by};
ghost use Rattle.redl_views.specs.Views.{is_freed as is_freed_by};
ghost use Rattle.redl_io.specs.Sink.{Puts};
ghost use Rattle.redl_tree.specs.Model.IdleTexts.{idle_nodes};
ghost use Rattle.redl_tree.specs.Model.View.{nodes_of, item_of, tag_of, kids_of};
ghost use Rattle.redl_views.specs.Idle.{idle_shown};
ghost use Rattle.redl_views.specs.PlainText.{start_shown as start_shown_by, end_shown as end_shown_by};
ghost use Rattle.redl_shown.specs.Shown.{shown};
ghost use Rattle.redl_views.specs.Ways.{Holds, HoldsIn};
ghost use Rattle.redl_views.specs.Walks.{view, gives, item_view, item_gives, item_taken, elem_view, summary_inside, one_gives as one_gives_by, taken_after as taken_after_by, loses_end as loses_end_by, is_lost as is_lost_by, is_walked as is_walked_by};

use crate::idle::put_idle;
use crate::known::{Known, asked_of_shell, goes_by};
use crate::next::{Next, next_of};
use crate::summary::{ViewSummary, inside, is_cut_para};
use crate::ways::find_way;
use redl_io::{Failed, Sink, put_piece};
use redl_shown::put_shown;
use redl_tables::{fate_of, goes_at, is_shell};
use redl_tree::{Elem, Fate, Node, Plain, Say, Word, is_named, is_quiet, is_thick, is_word};

// How many levels of shells a search notes on its way. Where more are in one another, what is further in is searched again.
const LEVELS: usize = 64;

/// What the list tells a node.
#[derive(Clone, Copy)]
pub(crate) struct Given<'a> {
    /// What the node takes up.
    pub taken: Option<bool>,
    /// What is known of what the node holds.
    pub known: Known<'a>,
}

/// What the walk of a node tells the list: whether it gives an element, and what the next paragraph takes up.
#[derive(Clone, Copy)]
pub(crate) struct Step {
    /// It becomes an element that is no properties of a paragraph, at the top.
    pub gives: bool,
    /// Where a paragraph is joined with the next one: whether what is taken up has an element.
    pub taken: Option<bool>,
}

/// Puts what the nodes of a list show, and answers whether one of them gives an element.
#[cycle(view)]
pub(crate) fn view_nodes<K: Sink>(
    nodes: &[Node],
    says: &[Say],
    above: ViewSummary,
    known: Known<'_>,
    out: &mut K,
) -> Result<bool, Failed>
    requires { Holds says.now known (nodes_of nodes.now) }
    ensures puts { Puts K.told K.faults K.settled K.lenders out.old out.new (view says.now above None (nodes_of nodes.now)) result }
    ensures gives { IfOk result (λ answer. answer ≡ gives says.now above (nodes_of nodes.now)) }
{
    let mut gives = false;
    let mut taken = None;
    let mut passed = 0;
    for i in 0..nodes.len() {
        let node = &nodes[i];
        let given = Given {
            taken,
            known: known.below(node, passed),
        };
        let step = view_node(node, &nodes[i + 1..], says, above, given, out)?;
        gives = either(gives, step.gives);
        taken = step.taken;
        passed = known.passed_after(node, passed);
    }
    Ok(gives)
}

fn either(one: bool, other: bool) -> bool
    ensures { result ≡ (one || other) }
{
    one || other
}

#[cycle(view)]
fn view_node<K: Sink>(
    node: &Node,
    rest: &[Node],
    says: &[Say],
    above: ViewSummary,
    given: Given<'_>,
    out: &mut K,
) -> Result<Step, Failed>
    requires { HoldsIn says.now given.known (item_of node.now) }
    ensures puts { Puts K.told K.faults K.settled K.lenders out.old out.new (item_view says.now above given.entry.taken (item_of node.now) (nodes_of rest.now)) result }
    ensures gives { IfOk result (λ step. step.gives ≡ item_gives says.now above (item_of node.now)) }
    ensures taken { IfOk result (λ step. step.taken ≡ item_taken says.now above given.entry.taken (item_of node.now) (nodes_of rest.now)) }
{
    match node {
        Node::Elem(elem) => view_elem(elem, rest, says, above, given, out),
        Node::Bytes(text) => view_bytes(text, above, given.taken, out),
        Node::Plain(plain) => view_plain(plain, above, given.taken, out),
    }
}

fn view_plain<K: Sink>(
    plain: &Plain<'_>,
    above: ViewSummary,
    taken: Option<bool>,
    out: &mut K,
) -> Result<Step, Failed>
    ensures puts { Puts K.told K.faults K.settled K.lenders out.old out.new (idle_shown above.shown (idle_nodes plain.now)) result }
    ensures gives { IfOk result (λ step. step.gives ≡ true) }
    ensures taken { IfOk result (λ step. step.taken ≡ option_map (λ b. b || true) taken) }
{
    put_idle(plain, above.shown, out)?;
    Ok(Step {
        gives: true,
        taken: or_taken(taken, true),
    })
}

fn view_bytes<K: Sink>(
    text: &[u8],
    above: ViewSummary,
    taken: Option<bool>,
    out: &mut K,
) -> Result<Step, Failed>
    ensures puts { Puts K.told K.faults K.settled K.lenders out.old out.new (if above.shown then shown text.now else []) result }
    ensures gives { IfOk result (λ step. step.gives ≡ false) }
    ensures taken { IfOk result (λ step. step.taken ≡ taken) }
{
    if above.shown {
        put_shown(text, out)?;
    }
    Ok(Step {
        gives: false,
        taken,
    })
}

#[cycle(view)]
fn view_elem<K: Sink>(
    elem: &Elem,
    rest: &[Node],
    says: &[Say],
    above: ViewSummary,
    given: Given<'_>,
    out: &mut K,
) -> Result<Step, Failed>
    requires { Holds says.now given.known (kids_of elem.now) }
    ensures puts { Puts K.told K.faults K.settled K.lenders out.old out.new
        (elem_view says.now above (tag_of elem.now) (kids_of elem.now) (view says.now (summary_inside says.now (tag_of elem.now) above) None (kids_of elem.now))
        (loses_end_by says.now above given.entry.taken (tag_of elem.now) (kids_of elem.now) (nodes_of rest.now) (gives says.now (summary_inside says.now (tag_of elem.now) above) (kids_of elem.now)))) result }
    ensures gives { IfOk result (λ step. step.gives ≡ one_gives_by says.now above (tag_of elem.now) (kids_of elem.now) (gives says.now (summary_inside says.now (tag_of elem.now) above) (kids_of elem.now))) }
    ensures taken { IfOk result (λ step. step.taken ≡ taken_after_by says.now above given.entry.taken (tag_of elem.now) (kids_of elem.now) (nodes_of rest.now) (gives says.now (summary_inside says.now (tag_of elem.now) above) (kids_of elem.now))) }
{
    if is_freed(says, elem) {
        let below = inside(says, elem, above);
        let full = view_nodes(elem.kids(), says, below, Known::nothing(), out)?;
        return Ok(answer(elem, rest, says, above, given.taken, full));
    }
    if given.known.found.is_none() && is_shell(elem, above.ancestors.site.place) {
        return view_shell(elem, rest, says, above, given.taken, out);
    }
    view_known(elem, rest, says, above, given, out)
}

// The same of a shell of which nothing is known: whether it goes is found once for all shells in it that are on the way.
#[cycle(view)]
fn view_shell<K: Sink>(
    elem: &Elem,
    rest: &[Node],
    says: &[Say],
    above: ViewSummary,
    taken: Option<bool>,
    out: &mut K,
) -> Result<Step, Failed>
    requires { is_freed_by says.now (tag_of elem.now) ≡ false }
    ensures puts { Puts K.told K.faults K.settled K.lenders out.old out.new
        (elem_view says.now above (tag_of elem.now) (kids_of elem.now) (view says.now (summary_inside says.now (tag_of elem.now) above) None (kids_of elem.now))
        (loses_end_by says.now above taken (tag_of elem.now) (kids_of elem.now) (nodes_of rest.now) (gives says.now (summary_inside says.now (tag_of elem.now) above) (kids_of elem.now)))) result }
    ensures gives { IfOk result (λ step. step.gives ≡ one_gives_by says.now above (tag_of elem.now) (kids_of elem.now) (gives says.now (summary_inside says.now (tag_of elem.now) above) (kids_of elem.now))) }
    ensures taken { IfOk result (λ step. step.taken ≡ taken_after_by says.now above taken (tag_of elem.now) (kids_of elem.now) (nodes_of rest.now) (gives says.now (summary_inside says.now (tag_of elem.now) above) (kids_of elem.now))) }
{
    let mut way = [0; LEVELS];
    let asked = asked_of_shell(elem, above.ancestors.site.place);
    let found = find_way(elem.kids(), asked, says, &mut way, 0);
    let known = Known {
        asked,
        found: Some(found),
        way: &way,
    };
    view_known(elem, rest, says, above, Given { taken, known }, out)
}

// The same of an element that isn't freed, by what is known of what it holds.
#[cycle(view)]
fn view_known<K: Sink>(
    elem: &Elem,
    rest: &[Node],
    says: &[Say],
    above: ViewSummary,
    given: Given<'_>,
    out: &mut K,
) -> Result<Step, Failed>
    requires known { Holds says.now given.known (kids_of elem.now) }
    requires freed { is_freed_by says.now (tag_of elem.now) ≡ false }
    ensures puts { Puts K.told K.faults K.settled K.lenders out.old out.new
        (elem_view says.now above (tag_of elem.now) (kids_of elem.now) (view says.now (summary_inside says.now (tag_of elem.now) above) None (kids_of elem.now))
        (loses_end_by says.now above given.entry.taken (tag_of elem.now) (kids_of elem.now) (nodes_of rest.now) (gives says.now (summary_inside says.now (tag_of elem.now) above) (kids_of elem.now)))) result }
    ensures gives { IfOk result (λ step. step.gives ≡ one_gives_by says.now above (tag_of elem.now) (kids_of elem.now) (gives says.now (summary_inside says.now (tag_of elem.now) above) (kids_of elem.now))) }
    ensures taken { IfOk result (λ step. step.taken ≡ taken_after_by says.now above given.entry.taken (tag_of elem.now) (kids_of elem.now) (nodes_of rest.now) (gives says.now (summary_inside says.now (tag_of elem.now) above) (kids_of elem.now))) }
{
    if !is_walked(says, elem, above, given.known) {
        return Ok(answer(elem, rest, says, above, given.taken, false));
    }
    put_start(elem, out)?;
    let below = inside(says, elem, above);
    let full = view_nodes(elem.kids(), says, below, given.known, out)?;
    let loses = loses_end(elem, rest, says, above, given.taken, full);
    put_end(elem, loses, out)?;
    Ok(answer_of_walked(elem, rest, says, above, given.taken, full))
}

// Whether an element is content whose kids take its place.
fn is_freed(says: &[Say], elem: &Elem) -> bool
    ensures { result ≡ is_freed_by says.now (tag_of elem.now) }
{
    elem.kind().is_content() && fate_of(says, elem) == Fate::Free
}

// Whether an element stays and may show something: it holds no properties, and is no table, row, cell or shell that goes.
fn is_walked(says: &[Say], elem: &Elem, above: ViewSummary, known: Known<'_>) -> bool
    requires { Holds says.now known (kids_of elem.now) }
    ensures { result ≡ is_walked_by says.now above (tag_of elem.now) (kids_of elem.now) }
{
    fate_of(says, elem) == Fate::Leave
        && !is_quiet(elem)
        && !goes_by(elem, above.ancestors.site.place, says, known)
}

// What an element tells its list, whose kids give an element or not.
fn answer(
    elem: &Elem,
    rest: &[Node],
    says: &[Say],
    above: ViewSummary,
    taken: Option<bool>,
    full: bool,
) -> Step
    ensures gives { result.gives ≡ one_gives_by says.now above (tag_of elem.now) (kids_of elem.now) full }
    ensures taken { result.taken ≡ taken_after_by says.now above taken (tag_of elem.now) (kids_of elem.now) (nodes_of rest.now) full }
{
    Step {
        gives: one_gives(elem, says, above, full),
        taken: taken_after(elem, rest, says, above, taken, full),
    }
}

// The same of an element that is walked: it becomes one.
fn answer_of_walked(
    elem: &Elem,
    rest: &[Node],
    says: &[Say],
    above: ViewSummary,
    taken: Option<bool>,
    full: bool,
) -> Step
    requires { is_walked_by says.now above (tag_of elem.now) (kids_of elem.now) ≡ true }
    ensures gives { result.gives ≡ one_gives_by says.now above (tag_of elem.now) (kids_of elem.now) full }
    ensures taken { result.taken ≡ taken_after_by says.now above taken (tag_of elem.now) (kids_of elem.now) (nodes_of rest.now) full }
{
    Step {
        gives: true,
        taken: taken_after(elem, rest, says, above, taken, full),
    }
}

fn one_gives(elem: &Elem, says: &[Say], above: ViewSummary, full: bool) -> bool
    ensures { result ≡ one_gives_by says.now above (tag_of elem.now) (kids_of elem.now) full }
{
    match fate_of(says, elem) {
        Fate::Leave => !is_word(elem, Word::PPr)
            && !goes_at(elem, above.ancestors.site.place, says),
        Fate::Free => elem.kind().is_content() && full,
        _ => false,
    }
}

fn taken_after(
    elem: &Elem,
    rest: &[Node],
    says: &[Say],
    above: ViewSummary,
    taken: Option<bool>,
    full: bool,
) -> Option<bool>
    ensures { result ≡ taken_after_by says.now above taken (tag_of elem.now) (kids_of elem.now) (nodes_of rest.now) full }
{
    // A paragraph that is cut is thick.
    if !is_thick(elem) {
        return match taken {
            Some(had) => Some(had || one_gives(elem, says, above, full)),
            None => None,
        };
    }
    if is_cut_para(says, elem, above) && next_of(rest, says, above) == Next::Paragraph {
        return Some(has_taken(taken) || full);
    }
    None
}

fn has_taken(taken: Option<bool>) -> bool
    ensures { result ≡ has_taken_by taken }
{
    match taken {
        Some(full) => full,
        None => false,
    }
}

fn or_taken(taken: Option<bool>, gives: bool) -> Option<bool>
    ensures { result ≡ option_map (λ b. b || gives) taken }
{
    match taken {
        Some(full) => Some(full || gives),
        None => None,
    }
}

// Whether a paragraph loses its end.
fn loses_end(
    elem: &Elem,
    rest: &[Node],
    says: &[Say],
    above: ViewSummary,
    taken: Option<bool>,
    full: bool,
) -> bool
    ensures { result ≡ loses_end_by says.now above taken (tag_of elem.now) (kids_of elem.now) (nodes_of rest.now) full }
{
    is_cut_para(says, elem, above) && is_lost(next_of(rest, says, above), has_taken(taken) || full)
}

fn is_lost(next: Next, full: bool) -> bool
    ensures { result ≡ is_lost_by next full }
{
    match next {
        Next::Nothing => false,
        Next::Paragraph => true,
        Next::Other => !full,
    }
}

/// Puts what an element shows at its start tag: a tab or a line break.
pub fn put_start<K: Sink>(elem: &Elem, out: &mut K) -> Result<(), Failed>
    ensures { Puts K.told K.faults K.settled K.lenders out.old out.new (start_shown_by (tag_of elem.now)) result }
{
    if is_named(elem, b"tab") {
        return put_piece(b"\t", out);
    }
    if is_named(elem, b"br") || is_named(elem, b"cr") {
        return put_piece(b"\n", out);
    }
    Ok(())
}

// Puts the end of a paragraph, unless it is lost.
fn put_end<K: Sink>(elem: &Elem, loses: bool, out: &mut K) -> Result<(), Failed>
    ensures { Puts K.told K.faults K.settled K.lenders out.old out.new (if loses then [] else end_shown_by (tag_of elem.now)) result }
{
    if !loses && is_word(elem, Word::P) {
        return put_piece(b"\n", out);
    }
    Ok(())
}
