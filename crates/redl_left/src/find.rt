//! What an element is found to be.

ghost use Rattle.std.specs.Prelude.{◌≡◌, IfOk, not, codes};
ghost use Rattle.std.specs.List.{list_any};
ghost use Rattle.std.specs.Option.{option_copied};
ghost use Rattle.redl_markup.specs.Attributes.{attributes_of};
ghost use Rattle.redl_reading.specs.Lists.{begins};
ghost use Rattle.redl_stamp.specs.Attribute.{attribute_value};
ghost use Rattle.redl_left.specs.Names.{name_text};
ghost use Rattle.redl_left.specs.Named.{named_of};
ghost use Rattle.redl_left.specs.Finds.{asks, asks_place, asks_when, begins_value, ends_value, has_front_name, is_normal, names_it, first_row, is_off, is_part_name, is_value, member_fact, content_fact, mark_fact, prop_fact};

use crate::fact::Fact;
use crate::name::Name;
use crate::named::Named;
use crate::row::{Row, When, Where};
use crate::usual::behind_ids;
use redl_markup::next_attribute;
use redl_reading::skip;
use redl_stamp::{attribute, has_attribute};
use redl_tree::{Kind, Prop, Space, Trace};
use std::alloc::{AllocError, Global};

// What rows ask of an element.
#[derive(Clone, Copy)]
pub(crate) struct Asked<'a> {
    /// The local name of its parent.
    pub(crate) parent: &'a [u8],
    /// Its namespace.
    pub(crate) space: Space,
    /// Its local name.
    pub(crate) local: &'a [u8],
    /// Its tail: all between its name and its `>`.
    pub(crate) tail: &'a [u8],
}

/// Whether an element with this name is a part of the package.
pub(crate) fn is_part_name(space: Space, local: &[u8]) -> bool
    ensures { result ≡ is_part_name space local.now }
{
    match space {
        Space::Pkg => local == b"part".as_slice(),
        _ => false,
    }
}

fn asks_place(place: &Where, asked: &Asked<'_>) -> bool
    ensures { result ≡ asks_place place.now asked.now.parent.now asked.now.space asked.now.local.now }
{
    match place {
        Where::Word(name) => match asked.space {
            Space::W => asked.local == name.text(),
            _ => false,
        },
        Where::AnyWord => asked.space == Space::W,
        Where::Inside(outer, name) => match asked.space {
            Space::Other => asked.parent == outer.text() && asked.local == name.text(),
            _ => false,
        },
        Where::Part => is_part_name(asked.space, asked.local),
    }
}

fn is_off(value: &[u8]) -> bool
    ensures { result ≡ is_off (Some value.now) }
{
    value == b"0".as_slice() || value == b"false".as_slice() || value == b"off".as_slice()
}

// Whether bytes begin so.
fn begins(value: &[u8], front: &[u8]) -> bool
    ensures { result ≡ begins_value front.now (Some value.now) }
{
    match skip(value, front) {
        Some(_) => true,
        None => false,
    }
}

// Whether a tag with this tail switches its property on. `Err` means out of memory.
fn is_on(alloc: Global, tail: &[u8]) -> Result<bool, AllocError>
    ensures { IfOk result (λ on. on ≡ not (is_off (attribute_value tail.now (codes "val")))) }
{
    match attribute(alloc, tail, b"val")? {
        Some(value) => Ok(!is_off(value.as_bytes())),
        None => Ok(true),
    }
}

fn has_value(alloc: Global, tail: &[u8], name: Name, wanted: Name) -> Result<bool, AllocError>
    ensures { IfOk result (λ has. has ≡ is_value (name_text wanted) (attribute_value tail.now (name_text name))) }
{
    match attribute(alloc, tail, name.text())? {
        Some(value) => Ok(value.as_bytes() == wanted.text()),
        None => Ok(false),
    }
}

fn has_end(alloc: Global, tail: &[u8], name: Name, ending: Name) -> Result<bool, AllocError>
    ensures { IfOk result (λ has. has ≡ ends_value (name_text ending) (attribute_value tail.now (name_text name))) }
{
    match attribute(alloc, tail, name.text())? {
        Some(value) => Ok(value.as_bytes().ends_with(ending.text())),
        None => Ok(false),
    }
}

fn has_front(alloc: Global, tail: &[u8], name: Name, front: Name) -> Result<bool, AllocError>
    ensures { IfOk result (λ has. has ≡ begins_value (name_text front) (attribute_value tail.now (name_text name))) }
{
    match attribute(alloc, tail, name.text())? {
        Some(value) => Ok(begins(value.as_bytes(), front.text())),
        None => Ok(false),
    }
}

// The tail, or the rest of it behind the ids of a paragraph where no name of theirs begins so.
fn past_ids<'t>(tail: &'t [u8], front: &[u8]) -> &'t [u8]
    ensures { has_front_name result.now front.now ≡ has_front_name tail.now front.now }
{
    if begins(b"paraId", front) {
        return tail;
    }
    if begins(b"textId", front) {
        return tail;
    }
    match behind_ids(tail) {
        Some(rest) => rest,
        None => tail,
    }
}

// Whether a tag with this tail has an attribute whose name begins so.
fn has_front_name(tail: &[u8], front: &[u8]) -> bool
    ensures { result ≡ list_any (λ attribute. begins front.now attribute.0.local) (attributes_of tail.now) }
{
    let mut left = past_ids(tail, front);
    while let Some((attribute, rest)) = next_attribute(left) {
        if begins(attribute.name.local, front) {
            return true;
        }
        left = rest;
    }
    false
}

// Whether a tag with this tail is of no type but the normal one. `Err` means out of memory.
fn is_normal(alloc: Global, tail: &[u8]) -> Result<bool, AllocError>
    ensures { IfOk result (λ normal. normal ≡ is_normal (attribute_value tail.now (codes "type"))) }
{
    match attribute(alloc, tail, b"type")? {
        Some(kind) => Ok(kind.as_bytes() == b"normal".as_slice()),
        None => Ok(true),
    }
}

// Whether the value of an attribute is named for a fact. `Err` means out of memory.
fn is_named(
    alloc: Global,
    named: &Named<'_>,
    fact: Fact,
    tail: &[u8],
    name: &[u8],
) -> Result<bool, AllocError>
    ensures { IfOk result (λ is. is ≡ names_it (named_of named.now fact) (attribute_value tail.now name.now)) }
{
    match attribute(alloc, tail, name)? {
        Some(value) => Ok(named.has(fact, value.as_bytes())),
        None => Ok(false),
    }
}

// Whether nothing names an element whose tag has this tail for a fact. `Err` means out of memory.
fn is_spare(alloc: Global, named: &Named<'_>, fact: Fact, tail: &[u8]) -> Result<bool, AllocError>
    ensures { IfOk result (λ spare. spare ≡ asks_when (named_of named.now) (When.Spare fact) tail.now) }
{
    if !is_normal(alloc, tail)? {
        return Ok(false);
    }
    Ok(!is_named(alloc, named, fact, tail, b"id")?)
}

// Whether a row asks for elements whose tag has this tail. `Err` means out of memory.
fn asks_when(alloc: Global, named: &Named<'_>, when: &When, tail: &[u8]) -> Result<bool, AllocError>
    ensures { IfOk result (λ asks. asks ≡ asks_when (named_of named.now) when.now tail.now) }
{
    match when {
        When::Always => Ok(true),
        When::On => is_on(alloc, tail),
        When::Has(name) => Ok(has_attribute(tail, name.text())),
        When::HasFront(name) => Ok(has_front_name(tail, name.text())),
        When::Is(name, wanted) => has_value(alloc, tail, *name, *wanted),
        When::Begins(name, front) => has_front(alloc, tail, *name, *front),
        When::Ends(name, ending) => has_end(alloc, tail, *name, *ending),
        When::Separates => Ok(!is_normal(alloc, tail)?),
        When::Spare(fact) => is_spare(alloc, named, *fact, tail),
        When::Led(fact) => is_named(alloc, named, *fact, tail, b"name"),
    }
}

// Whether a row asks for an element. `Err` means out of memory.
fn asks(alloc: Global, named: &Named<'_>, row: &Row, asked: &Asked<'_>) -> Result<bool, AllocError>
    ensures { IfOk result (λ so. so ≡ asks (named_of named.now) asked.now.parent.now asked.now.space asked.now.local.now asked.now.tail.now row.now) }
{
    if !asks_place(&row.place, asked) {
        return Ok(false);
    }
    asks_when(alloc, named, &row.when, asked.tail)
}

/// The first row that asks for an element. `Err` means out of memory.
pub(crate) fn first_row<'r>(
    alloc: Global,
    named: &Named<'_>,
    rows: &'r [Row],
    asked: &Asked<'_>,
) -> Result<Option<&'r Row>, AllocError>
    ensures { IfOk result (λ found. option_copied found ≡ first_row (named_of named.now) rows.now asked.now.parent.now asked.now.space asked.now.local.now asked.now.tail.now) }
{
    for row in rows {
        if asks(alloc, named, row, asked)? {
            return Ok(Some(row));
        }
    }
    Ok(None)
}

fn content_fact(trace: Trace) -> Fact
    ensures { result ≡ content_fact trace }
{
    match trace {
        Trace::Ins => Fact::Ins,
        Trace::Del => Fact::Del,
        Trace::From => Fact::MoveFrom,
        Trace::To => Fact::MoveTo,
    }
}

fn mark_fact(trace: Trace) -> Fact
    ensures { result ≡ mark_fact trace }
{
    match trace {
        Trace::Ins => Fact::MarkIns,
        Trace::Del => Fact::MarkDel,
        Trace::From => Fact::MarkFrom,
        Trace::To => Fact::MarkTo,
    }
}

fn prop_fact(prop: Prop) -> Fact
    ensures { result ≡ prop_fact prop }
{
    match prop {
        Prop::Run => Fact::RunProps,
        Prop::Para => Fact::ParaProps,
        Prop::Sect => Fact::SectProps,
        Prop::Table => Fact::TableProps,
        Prop::Except => Fact::ExceptProps,
        Prop::Row => Fact::RowProps,
        Prop::Cell => Fact::CellProps,
    }
}

/// What a member of a revision is, by its kind. `None` for all other elements, and for the markers of a move.
pub(crate) fn member_fact(kind: Kind) -> Option<Fact>
    ensures { result ≡ member_fact kind }
{
    match kind {
        Kind::Content(trace) => Some(content_fact(trace)),
        Kind::Mark(trace) => Some(mark_fact(trace)),
        Kind::Row(Trace::Ins) => Some(Fact::RowIns),
        Kind::Row(Trace::Del) => Some(Fact::RowDel),
        Kind::Cell(Trace::Ins) => Some(Fact::CellIns),
        Kind::Cell(Trace::Del) => Some(Fact::CellDel),
        Kind::Change(prop) => Some(prop_fact(prop)),
        Kind::Row(_) | Kind::Cell(_) | Kind::Marker | Kind::Plain => None,
    }
}
