//! The walk over the nodes of a story, which puts their units.

ghost use Rattle.std.specs.Prelude.{◌≡◌};
ghost use Rattle.redl_tree.specs.Model.View.{nodes_of, item_of, tag_of, kids_of};
ghost use Rattle.redl_bare.specs.Units.{in_marks, byte_texts, start_texts, short_texts, start_things, member_units, open_units, start_units, end_things, units_in};
ghost use Rattle.redl_bare.specs.Inside.Items.{held_at, ends_at, element_units, item_units};
ghost use Rattle.redl_bare.specs.Inside.Puts.{PutsUnits};
ghost use Rattle.redl_bare.specs.Inside.Texts.{short_of};
ghost use Rattle.redl_bare.specs.Inside.Views.{marks_view};

use crate::idle::put_idle;
use crate::line::{put_member, put_story, put_thing};
use crate::marks::enter;
use crate::place::{BarePlace, is_left_out};
use crate::stamps::stamp_in;
use crate::starts::{Short, end_of, start_of};
use crate::texts::{put_field, put_short, put_shown_texts};
use crate::units::{Story, Thing, has_line};
use crate::values::value_in;
use crate::writer::Writer;
use redl_io::{Failed, Sink};
use redl_tree::{Elem, Node, Space, Word, is_named, is_word};

/// Puts the units of nodes at this place. The marks are the same again after them.
#[cycle(units)]
pub(crate) fn put_nodes<'a, K: Sink>(
    nodes: &[Node<'a>],
    place: BarePlace,
    writer: &mut Writer<'a, K>,
) -> Result<(), Failed>
    ensures { PutsUnits K.told K.faults K.settled K.lenders writer.old writer.new (units_in place (marks_view writer.old.marks) (nodes_of nodes.now)) result }
{
    for node in nodes {
        put_node(node, place, writer)?;
    }
    Ok(())
}

#[cycle(units)]
fn put_node<'a, K: Sink>(
    node: &Node<'a>,
    place: BarePlace,
    writer: &mut Writer<'a, K>,
) -> Result<(), Failed>
    ensures { PutsUnits K.told K.faults K.settled K.lenders writer.old writer.new (item_units place (marks_view writer.old.marks) (item_of node.now)) result }
{
    match node {
        Node::Elem(elem) => put_elem(elem, place, writer),
        Node::Bytes(bytes) => put_bytes(bytes, place, writer),
        Node::Plain(plain) => put_idle(plain, place, writer),
    }
}

/// The same of an element.
#[cycle(units)]
pub(crate) fn put_elem<'a, K: Sink>(
    elem: &Elem<'a>,
    place: BarePlace,
    writer: &mut Writer<'a, K>,
) -> Result<(), Failed>
    ensures { PutsUnits K.told K.faults K.settled K.lenders writer.old writer.new (element_units place (marks_view writer.old.marks) (tag_of elem.now) (kids_of elem.now)) result }
{
    let inside = place.inside(elem);
    put_start(elem, place, writer)?;
    put_held(elem, inside, writer)?;
    put_end(elem, place, inside, writer)
}

// Puts the units of what an element holds, at their place.
#[cycle(units)]
fn put_held<'a, K: Sink>(
    elem: &Elem<'a>,
    inside: BarePlace,
    writer: &mut Writer<'a, K>,
) -> Result<(), Failed>
    ensures { PutsUnits K.told K.faults K.settled K.lenders writer.old writer.new (held_at inside (marks_view writer.old.marks) (tag_of elem.now) (kids_of elem.now)) result }
{
    let came = enter(&mut writer.marks, elem);
    put_nodes(elem.kids(), inside, writer)?;
    writer.marks.leave(came);
    Ok(())
}

// Puts the texts of bytes.
fn put_bytes<'a, K: Sink>(
    bytes: &[u8],
    place: BarePlace,
    writer: &mut Writer<'a, K>,
) -> Result<(), Failed>
    ensures { PutsUnits K.told K.faults K.settled K.lenders writer.old writer.new (in_marks (marks_view writer.old.marks) (byte_texts place bytes.now)) result }
{
    match place {
        BarePlace::InText => put_shown_texts(bytes, writer),
        _ => Ok(()),
    }
}

// Puts the units of an element before those that it holds.
fn put_start<'a, K: Sink>(
    elem: &Elem<'a>,
    place: BarePlace,
    writer: &mut Writer<'a, K>,
) -> Result<(), Failed>
    ensures { PutsUnits K.told K.faults K.settled K.lenders writer.old writer.new (start_units place (marks_view writer.old.marks) (tag_of elem.now)) result }
{
    match place {
        BarePlace::Silent => Ok(()),
        BarePlace::Quiet => put_own_member(elem, writer),
        BarePlace::InRun | BarePlace::InText | BarePlace::InField | BarePlace::Open => {
            put_open_start(elem, writer)
        }
    }
}

fn put_own_member<'a, K: Sink>(elem: &Elem<'_>, writer: &mut Writer<'a, K>) -> Result<(), Failed>
    ensures { PutsUnits K.told K.faults K.settled K.lenders writer.old writer.new (member_units (tag_of elem.now)) result }
{
    if has_line(elem.kind()) {
        return put_member(elem.kind(), stamp_in(elem.tail()), writer);
    }
    Ok(())
}

fn put_open_start<'a, K: Sink>(elem: &Elem<'a>, writer: &mut Writer<'a, K>) -> Result<(), Failed>
    ensures { PutsUnits K.told K.faults K.settled K.lenders writer.old writer.new (open_units (marks_view writer.old.marks) (tag_of elem.now)) result }
{
    put_start_texts(elem, writer)?;
    put_things(elem, writer)
}

fn put_start_texts<'a, K: Sink>(elem: &Elem<'a>, writer: &mut Writer<'a, K>) -> Result<(), Failed>
    ensures { PutsUnits K.told K.faults K.settled K.lenders writer.old writer.new (in_marks (marks_view writer.old.marks) (start_texts (tag_of elem.now))) result }
{
    if is_named(elem, b"fldSimple") {
        return put_field(value_in(elem.tail(), b"instr"), writer);
    }
    put_short(start_of_elem(elem), writer)
}

// What an element that is no field shows.
fn start_of_elem(elem: &Elem) -> Short
    ensures { short_of result ≡ short_texts (tag_of elem.now) }
{
    match elem.space() {
        Space::W => start_of(elem.local(), elem.tail()),
        _ => Short::Nothing,
    }
}

// Puts the lines that an element begins.
fn put_things<'a, K: Sink>(elem: &Elem<'a>, writer: &mut Writer<'a, K>) -> Result<(), Failed>
    ensures { PutsUnits K.told K.faults K.settled K.lenders writer.old writer.new (start_things (marks_view writer.old.marks) (tag_of elem.now)) result }
{
    if is_word(elem, Word::Tr) {
        put_thing(Thing::Row, writer)
    } else if is_word(elem, Word::Tc) {
        put_thing(Thing::Cell, writer)
    } else if is_left_out(elem) {
        Ok(())
    } else if is_word(elem, Word::Footnote) {
        put_story(Story::Footnote, writer)
    } else if is_word(elem, Word::Endnote) {
        put_story(Story::Endnote, writer)
    } else {
        Ok(())
    }
}

// Puts the units of an element after those that it holds, which are inside.
fn put_end<'a, K: Sink>(
    elem: &Elem<'a>,
    place: BarePlace,
    inside: BarePlace,
    writer: &mut Writer<'a, K>,
) -> Result<(), Failed>
    ensures { PutsUnits K.told K.faults K.settled K.lenders writer.old writer.new (ends_at inside place (marks_view writer.old.marks) (tag_of elem.now)) result }
{
    put_short(end_of(inside), writer)?;
    put_end_things(elem, place, writer)
}

fn put_end_things<'a, K: Sink>(
    elem: &Elem<'a>,
    place: BarePlace,
    writer: &mut Writer<'a, K>,
) -> Result<(), Failed>
    ensures { PutsUnits K.told K.faults K.settled K.lenders writer.old writer.new (end_things place (marks_view writer.old.marks) (tag_of elem.now)) result }
{
    if place.is_open() && is_word(elem, Word::P) {
        return put_thing(Thing::Paragraph, writer);
    }
    Ok(())
}
