//! What members in the properties of an element hold of it.

ghost use Rattle.std.specs.Prelude.{◌≡◌, ◌++◌, OnOk};
ghost use Rattle.std.specs.List.{flat_map, list_any};
ghost use Rattle.redl_tree.specs.Model.View.{tag_of};
ghost use Rattle.redl_spans.specs.Members.{change_span, content_span, has_own_edge, is_run, mark_span, member_span, own_spans, run_change_span, span_from};

use crate::span::Span;
use redl_tree::{Elem, Kind, Prop, Space, Word, is_word};
use std::alloc::AllocError;

/// A member of a revision.
#[derive(Clone, Copy)]
pub(crate) struct Member {
    /// What it is.
    pub(crate) kind: Kind,
    /// The number of its revision.
    pub(crate) revision: u32,
}

/// Whether one of these members is a row or a cell.
pub(crate) fn have_edge(members: &[Member]) -> bool
    ensures { result ≡ list_any has_own_edge members.now }
{
    for member in members {
        if has_own_edge(*member) {
            return true;
        }
    }
    false
}

fn has_own_edge(member: Member) -> bool
    ensures { result ≡ has_own_edge member }
{
    match member.kind {
        Kind::Row(_) | Kind::Cell(_) => true,
        Kind::Plain | Kind::Content(_) | Kind::Mark(_) | Kind::Change(_) | Kind::Marker => false,
    }
}

/// Adds what an element with units from `from` to `to` holds as a member, and what these members in its properties hold. `Err` means out
/// of memory, here and below.
#[inline(never)]
pub(crate) fn add_spans(
    elem: &Elem,
    members: &[Member],
    from: usize,
    to: usize,
    spans: &mut Vec<Span>,
) -> Result<(), AllocError>
    ensures { OnOk result (spans.new.items ≡ spans.old.items ++ own_spans (tag_of elem.now) members.now from to) }
{
    add_content(elem, from, to, spans)?;
    add_inside(elem, members, from, to, spans)
}

fn add_content(elem: &Elem, from: usize, to: usize, spans: &mut Vec<Span>) -> Result<(), AllocError>
    ensures { OnOk result (spans.new.items ≡ spans.old.items ++ content_span (tag_of elem.now).kind (tag_of elem.now).rev from to) }
{
    match elem.kind() {
        Kind::Content(_) => add_span(elem.rev(), from, to, spans),
        Kind::Plain
        | Kind::Mark(_)
        | Kind::Row(_)
        | Kind::Cell(_)
        | Kind::Change(_)
        | Kind::Marker => Ok(()),
    }
}

fn add_inside(
    owner: &Elem,
    members: &[Member],
    from: usize,
    to: usize,
    spans: &mut Vec<Span>,
) -> Result<(), AllocError>
    ensures { OnOk result (spans.new.items ≡ spans.old.items ++ flat_map (member_span (tag_of owner.now) from to) members.now) }
{
    for member in members {
        add_member(owner, *member, from, to, spans)?;
    }
    Ok(())
}

fn add_member(
    owner: &Elem,
    member: Member,
    from: usize,
    to: usize,
    spans: &mut Vec<Span>,
) -> Result<(), AllocError>
    ensures { OnOk result (spans.new.items ≡ spans.old.items ++ member_span (tag_of owner.now) from to member) }
{
    match member.kind {
        Kind::Mark(_) => add_mark(member.revision, to, spans),
        Kind::Row(_) | Kind::Cell(_) => add_span(member.revision, from, to, spans),
        Kind::Change(prop) => add_change(owner, prop, member.revision, (from, to), spans),
        Kind::Plain | Kind::Content(_) | Kind::Marker => Ok(()),
    }
}

fn add_change(
    owner: &Elem,
    prop: Prop,
    revision: u32,
    units: (usize, usize),
    spans: &mut Vec<Span>,
) -> Result<(), AllocError>
    ensures { OnOk result (spans.new.items ≡ spans.old.items ++ change_span (tag_of owner.now) prop revision units.0 units.1) }
{
    match prop {
        Prop::Run => add_run_change(owner, revision, units, spans),
        Prop::Sect => Ok(()),
        Prop::Para | Prop::Table | Prop::Except | Prop::Row | Prop::Cell => {
            add_span(revision, units.0, units.1, spans)
        }
    }
}

fn add_run_change(
    owner: &Elem,
    revision: u32,
    units: (usize, usize),
    spans: &mut Vec<Span>,
) -> Result<(), AllocError>
    ensures { OnOk result (spans.new.items ≡ spans.old.items ++ run_change_span (tag_of owner.now) revision units.0 units.1) }
{
    if is_word(owner, Word::P) {
        return add_mark(revision, units.1, spans);
    }
    if is_run(owner) {
        return add_span(revision, units.0, units.1, spans);
    }
    Ok(())
}

fn is_run(elem: &Elem) -> bool
    ensures { result ≡ is_run (tag_of elem.now) }
{
    match elem.space() {
        Space::W | Space::M => elem.local() == b"r".as_slice(),
        Space::Pkg | Space::Other => false,
    }
}

fn add_mark(revision: u32, to: usize, spans: &mut Vec<Span>) -> Result<(), AllocError>
    ensures { OnOk result (spans.new.items ≡ spans.old.items ++ mark_span revision to) }
{
    add_span(revision, to.saturating_sub(1), to, spans)
}

fn add_span(revision: u32, from: usize, to: usize, spans: &mut Vec<Span>) -> Result<(), AllocError>
    ensures { OnOk result (spans.new.items ≡ spans.old.items ++ span_from revision from to) }
{
    if from < to {
        spans.push(Span { revision, from, to })?;
    }
    Ok(())
}
