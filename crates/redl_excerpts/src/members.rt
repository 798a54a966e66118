//! The walk over the nodes of a story: each member tells the excerpt of its revision.

ghost use Rattle.std.specs.Prelude.{◌≡◌, ◌<◌, ◌∷◌, [], IfOk, IfSome, IsSome, IsTrue, OnOk, false, length, true};
ghost use Rattle.redl_tree.specs.Model.IdleTexts.{idle_nodes};
ghost use Rattle.redl_tree.specs.Model.View.{nodes_of, item_of, tag_of, kids_of};
ghost use Rattle.redl_changed.specs.Changed.{changed_of};
ghost use Rattle.redl_excerpts.specs.Excerpts.{TellsEach, is_moved, told, told_all, told_if_made};
ghost use Rattle.redl_said.specs.Lines.{along, line_of};
ghost use Rattle.redl_excerpts.specs.Mentions.{Where, bytes_said, changing, element_mentions, in_paragraph, item_mentions, member_told, mentions, stretch_in, told_by};
ghost use Rattle.redl_said.specs.Said.{element_said, holds_text, item_said, said, start_said};
ghost use Rattle.redl_excerpts.specs.Inside.Around.{IsAround};
ghost use Rattle.redl_excerpts.specs.Inside.Flat.{are_flat};
ghost use Rattle.redl_excerpts.specs.Inside.Views.{where_of};

use crate::around::{begin_around, end_around};
use crate::excerpt::Excerpt;
use crate::flat::{are_flat, count_telling, is_made};
use redl_changed::changed_of;
use redl_index::Revision;
use redl_kinds::RevKind;
use redl_said::{
    Line, LinePlace, holds_text, is_paragraph, tell_bytes, tell_nodes, tell_plain, tell_start,
};
use redl_tree::{Elem, Kind, Node, Plain, Prop, Trace, is_quiet};
use std::alloc::{AllocError, Global};

// For how many bytes a line takes room at first.
const USUAL_LINE: usize = 400;

/// Where nodes stand, but for their place in the line.
#[derive(Clone, Copy)]
pub(crate) struct Here<'a, 'n, 's, 'm> {
    /// Whether they are in an element that holds text.
    pub(crate) in_text: bool,
    /// The list that they are of.
    pub(crate) siblings: &'s [Node<'m>],
    /// The kids of the nearest ancestor that is no element of properties.
    pub(crate) owner: &'a [Node<'n>],
    /// Where these begin in the line.
    pub(crate) owner_place: LinePlace,
    /// The whole line.
    pub(crate) whole: &'a [u8],
}

/// Tells the excerpts what there is of their revisions among nodes, and gives the place behind these. `Err` means out of memory.
#[cycle(members)]
pub(crate) fn tell_members(
    alloc: Global,
    revisions: &[Revision],
    nodes: &[Node],
    here: Here<'_, '_, '_, '_>,
    place: LinePlace,
    excerpts: &mut Vec<Option<Excerpt>>,
) -> Result<LinePlace, AllocError>
    ensures told { OnOk result (TellsEach excerpts.old.items excerpts.new.items (λ v. mentions (is_moved revisions.now v) v (where_of here.entry place) (nodes_of nodes.now))) }
    ensures place { IfOk result (λ behind. behind ≡ along place (said true here.entry.in_text (nodes_of nodes.now))) }
{
    let mut place = place;
    for node in nodes {
        place = tell_member_node(alloc, revisions, node, here, place, excerpts)?;
    }
    Ok(place)
}

#[cycle(members)]
fn tell_member_node(
    alloc: Global,
    revisions: &[Revision],
    node: &Node,
    here: Here<'_, '_, '_, '_>,
    place: LinePlace,
    excerpts: &mut Vec<Option<Excerpt>>,
) -> Result<LinePlace, AllocError>
    ensures told { OnOk result (TellsEach excerpts.old.items excerpts.new.items (λ v. item_mentions (is_moved revisions.now v) v (where_of here.entry place) (item_of node.now))) }
    ensures place { IfOk result (λ behind. behind ≡ along place (item_said true here.entry.in_text (item_of node.now))) }
{
    match node {
        Node::Elem(elem) => tell_member_elem(alloc, revisions, elem, here, place, excerpts),
        Node::Bytes(text) => {
            let behind = past_bytes(text, here.in_text, place)?;
            Ok(behind)
        }
        Node::Plain(plain) => {
            let behind = past_plain(plain, here.in_text, place)?;
            Ok(behind)
        }
    }
}

fn past_bytes(text: &[u8], in_text: bool, place: LinePlace) -> Result<LinePlace, AllocError>
    ensures { IfOk result (λ behind. behind ≡ along place (bytes_said in_text text.now)) }
{
    let mut behind = place;
    tell_bytes(text, in_text, &mut behind)?;
    Ok(behind)
}

fn past_plain(plain: &Plain<'_>, in_text: bool, place: LinePlace) -> Result<LinePlace, AllocError>
    ensures { IfOk result (λ behind. behind ≡ along place (said true in_text (idle_nodes plain.now))) }
{
    let mut behind = place;
    tell_plain(plain, in_text, &mut behind)?;
    Ok(behind)
}

#[cycle(members)]
fn tell_member_elem(
    alloc: Global,
    revisions: &[Revision],
    elem: &Elem,
    here: Here<'_, '_, '_, '_>,
    place: LinePlace,
    excerpts: &mut Vec<Option<Excerpt>>,
) -> Result<LinePlace, AllocError>
    ensures told { OnOk result (TellsEach excerpts.old.items excerpts.new.items (λ v. element_mentions (is_moved revisions.now v) v (where_of here.entry place) (tag_of elem.now) (kids_of elem.now))) }
    ensures place { IfOk result (λ behind. behind ≡ along place (element_said true (tag_of elem.now) (kids_of elem.now))) }
{
    if stands_around(revisions, excerpts, elem, place)? {
        let behind = tell_around(alloc, revisions, elem, here, place, excerpts)?;
        return Ok(behind);
    }
    let end = tell_member(alloc, revisions, elem, here, place, excerpts)?;
    if is_paragraph(elem) {
        tell_paragraph(alloc, revisions, elem, excerpts)?;
        return Ok(place);
    }
    let held = elem.kids();
    if is_quiet(elem) {
        let inside = Here {
            in_text: false,
            siblings: held,
            owner: here.owner,
            owner_place: here.owner_place,
            whole: here.whole,
        };
        tell_members(alloc, revisions, held, inside, place, excerpts)?;
        return Ok(place);
    }
    let begin = past_start(elem, place)?;
    if let Some(end) = end_of_flat(excerpts, elem, place, begin, end) {
        return Ok(end);
    }
    let inside = Here {
        in_text: holds_text(elem),
        siblings: held,
        owner: held,
        owner_place: begin,
        whole: here.whole,
    };
    let behind = tell_members(alloc, revisions, held, inside, begin, excerpts)?;
    Ok(behind)
}

// Whether an element is a member that tells an excerpt of what it holds, and other members or paragraphs stand inside it. It says
// nothing at its start tag. `Err` means out of memory.
fn stands_around(
    revisions: &[Revision],
    excerpts: &[Option<Excerpt>],
    elem: &Elem,
    place: LinePlace,
) -> Result<bool, AllocError>
    ensures { IfOk result (λ around. IsTrue around → IsAround revisions.now (tag_of elem.now) (kids_of elem.now) place (length excerpts.now)) }
{
    let number = elem.rev() as usize;
    if !is_made(excerpts, number) || !tells_of_kids(is_moved(revisions, number), elem) {
        return Ok(false);
    }
    if is_paragraph(elem) || is_quiet(elem) || holds_text(elem) || are_flat(excerpts, elem.kids()) {
        return Ok(false);
    }
    let begin = past_start(elem, place)?;
    Ok(begin == place)
}

// Whether a member tells of what it holds.
fn tells_of_kids(moved: bool, elem: &Elem) -> bool
    ensures { IsTrue result → (here : Where) → told_by moved here (tag_of elem.now).kind (tag_of elem.now) (kids_of elem.now) ≡ stretch_in here.whole (tag_of elem.now) here.place (kids_of elem.now) ∷ [] }
{
    match elem.kind() {
        Kind::Content(trace) => !(moved && trace == Trace::To),
        _ => false,
    }
}

// A member with others inside it tells: its words before they tell, and what comes after it once its end is known. So what it
// holds is not gone over for that.
#[cycle(members)]
fn tell_around(
    alloc: Global,
    revisions: &[Revision],
    elem: &Elem,
    here: Here<'_, '_, '_, '_>,
    place: LinePlace,
    excerpts: &mut Vec<Option<Excerpt>>,
) -> Result<LinePlace, AllocError>
    requires around { IsAround revisions.now (tag_of elem.now) (kids_of elem.now) place (length excerpts.old.items) }
    ensures told { OnOk result (TellsEach excerpts.old.items excerpts.new.items (λ v. element_mentions (is_moved revisions.now v) v (where_of here.entry place) (tag_of elem.now) (kids_of elem.now))) }
    ensures place { IfOk result (λ behind. behind ≡ along place (element_said true (tag_of elem.now) (kids_of elem.now))) }
{
    let at = elem.rev() as usize - 1;
    let held = elem.kids();
    let inside = Here {
        in_text: false,
        siblings: held,
        owner: held,
        owner_place: place,
        whole: here.whole,
    };
    let away = begin_around(alloc, &mut excerpts[at], elem, here.whole, place)?;
    let end = tell_members(alloc, revisions, held, inside, place, excerpts)?;
    end_around(alloc, &mut excerpts[at], here.whole, end, away)?;
    Ok(end)
}

fn past_start(elem: &Elem, place: LinePlace) -> Result<LinePlace, AllocError>
    ensures { IfOk result (λ behind. behind ≡ along place (start_said (tag_of elem.now))) }
{
    let mut behind = place;
    tell_start(elem, &mut behind)?;
    Ok(behind)
}

// The place behind an element's kids, which begin here, where a member told of them and nothing inside tells: that where they ended
// then, so that they need not be walked once more.
fn end_of_flat(
    excerpts: &[Option<Excerpt>],
    elem: &Elem,
    place: LinePlace,
    begin: LinePlace,
    end: Option<LinePlace>,
) -> Option<LinePlace>
    requires { IfSome end (λ end. end ≡ along place (said true false (kids_of elem.now))) }
    ensures behind { IfSome result (λ behind. behind ≡ along begin (said true (holds_text (tag_of elem.now)) (kids_of elem.now))) }
    ensures flat { IsSome result → are_flat excerpts.now (kids_of elem.now) ≡ true }
{
    if end.is_some() && begin == place && !holds_text(elem) && are_flat(excerpts, elem.kids()) {
        return end;
    }
    None
}

#[cycle(members)]
fn tell_paragraph(
    alloc: Global,
    revisions: &[Revision],
    elem: &Elem,
    excerpts: &mut Vec<Option<Excerpt>>,
) -> Result<(), AllocError>
    ensures { OnOk result (TellsEach excerpts.old.items excerpts.new.items (λ v. mentions (is_moved revisions.now v) v (in_paragraph (kids_of elem.now) (line_of (said true false (kids_of elem.now)))) (kids_of elem.now))) }
{
    let held = elem.kids();
    let count = count_telling(excerpts, held);
    if count == 0 {
        return Ok(());
    }
    let line = line_of(alloc, held)?;
    let start = LinePlace::start(line.as_bytes());
    let inside = Here {
        in_text: false,
        siblings: held,
        owner: held,
        owner_place: start,
        whole: line.as_bytes(),
    };
    tell_members(alloc, revisions, &held[..count], inside, start, excerpts)?;
    Ok(())
}

// The line of a paragraph that holds these nodes.
fn line_of(alloc: Global, nodes: &[Node]) -> Result<Line, AllocError>
    ensures { IfOk result (λ line. line.text ≡ line_of (said true false (nodes_of nodes.now))) }
{
    let mut line = Line::new(alloc);
    line.make_room(USUAL_LINE)?;
    tell_nodes(nodes, true, false, &mut line)?;
    Ok(line)
}

// Tells the excerpt of its revision what an element tells, where it is a member of one of which an excerpt is made. It gives the place where the element's kids
// end in the line, where these are what it tells of.
fn tell_member(
    alloc: Global,
    revisions: &[Revision],
    elem: &Elem,
    here: Here<'_, '_, '_, '_>,
    place: LinePlace,
    excerpts: &mut Vec<Option<Excerpt>>,
) -> Result<Option<LinePlace>, AllocError>
    ensures told { OnOk result (TellsEach excerpts.old.items excerpts.new.items (λ v. member_told (is_moved revisions.now v) v (where_of here.entry place) (tag_of elem.now) (kids_of elem.now))) }
    ensures end { IfOk result (λ end. IfSome end (λ end. end ≡ along place (said true false (kids_of elem.now)))) }
{
    let number = elem.rev() as usize;
    if number == 0 {
        return Ok(None);
    }
    if excerpts.len() < number {
        return Ok(None);
    }
    let moved = is_moved(revisions, number);
    let end = tell_if_made(alloc, moved, elem, here, place, &mut excerpts[number - 1])?;
    Ok(end)
}

// The same, where this is the excerpt, if it is made.
fn tell_if_made(
    alloc: Global,
    moved: bool,
    elem: &Elem,
    here: Here<'_, '_, '_, '_>,
    place: LinePlace,
    excerpt: &mut Option<Excerpt>,
) -> Result<Option<LinePlace>, AllocError>
    ensures told { OnOk result (excerpt.new ≡ told_if_made (told_by moved (where_of here.entry place) (tag_of elem.now).kind (tag_of elem.now) (kids_of elem.now)) excerpt.old) }
    ensures end { IfOk result (λ end. IfSome end (λ end. end ≡ along place (said true false (kids_of elem.now)))) }
{
    match excerpt {
        Some(excerpt) => tell_kind(alloc, moved, elem, here, place, excerpt),
        None => Ok(None),
    }
}

fn is_moved(revisions: &[Revision], number: usize) -> bool
    requires { 0 < number }
    ensures { result ≡ is_moved revisions.now number }
{
    match revisions.get(number - 1) {
        Some(revision) => revision.kind == RevKind::Move,
        None => false,
    }
}

// Tells the excerpt what a member tells. It gives the place where the element's kids end in the line, where these are what it tells
// of.
fn tell_kind(
    alloc: Global,
    moved: bool,
    elem: &Elem,
    here: Here<'_, '_, '_, '_>,
    place: LinePlace,
    excerpt: &mut Excerpt,
) -> Result<Option<LinePlace>, AllocError>
    ensures told { OnOk result (excerpt.new ≡ told_all excerpt.old (told_by moved (where_of here.entry place) (tag_of elem.now).kind (tag_of elem.now) (kids_of elem.now))) }
    ensures end { IfOk result (λ end. IfSome end (λ end. end ≡ along place (said true false (kids_of elem.now)))) }
{
    match elem.kind() {
        Kind::Plain | Kind::Marker => Ok(None),
        Kind::Content(trace) => {
            if moved && trace == Trace::To {
                return Ok(None);
            }
            let end = excerpt.tell_stretch(alloc, elem, here.whole, place, elem.kids())?;
            Ok(Some(end))
        }
        Kind::Mark(_) => {
            if moved {
                return Ok(None);
            }
            excerpt.tell_paragraph_end(alloc, elem, here.whole)?;
            Ok(None)
        }
        Kind::Row(_) | Kind::Cell(_) => {
            excerpt.tell_stretch(alloc, elem, here.whole, here.owner_place, here.owner)?;
            Ok(None)
        }
        Kind::Change(what) => {
            tell_change(alloc, what, elem, here, excerpt)?;
            Ok(None)
        }
    }
}

// Tells the excerpt what a change of such properties tells: what it is of, and the properties that it changes.
fn tell_change(
    alloc: Global,
    what: Prop,
    elem: &Elem,
    here: Here<'_, '_, '_, '_>,
    excerpt: &mut Excerpt,
) -> Result<(), AllocError>
    ensures { OnOk result (excerpt.new ≡ told excerpt.old (changing (changed_of what (nodes_of here.entry.siblings.now) (kids_of elem.now)) (stretch_in here.entry.whole.now (tag_of elem.now) here.entry.owner_place (nodes_of here.entry.owner.now)))) }
{
    let began = excerpt.begun;
    excerpt.tell_stretch(alloc, elem, here.whole, here.owner_place, here.owner)?;
    if !began {
        excerpt.changed = changed_of(alloc, what, here.siblings, elem.kids())?;
    }
    Ok(())
}
