//! The walk that finds what names comments, notes and authors. An author who is named already is not noted again.

ghost use Rattle.std.specs.Prelude.{◌≡◌, [], List, ℕ, true, codes, IsTrue, OnOk};
ghost use Rattle.redl_stamp.specs.Attribute.{attribute_value};
ghost use Rattle.redl_tree.specs.Model.IdleTexts.{idle_nodes};
ghost use Rattle.redl_tree.specs.Model.Nodes.{no_nodes, in_front};
ghost use Rattle.redl_tree.specs.Model.View.{nodes_of, item_of, tag_of, kids_of};
ghost use Rattle.redl_left.specs.Alike.{NameAlike};
ghost use Rattle.redl_left.specs.declared.fact.Fact.TheVariants.{Name};
ghost use Rattle.redl_left.specs.Finds.{element_finds, finds, found, found_plain, found_value, part_of, value_or_nothing};
ghost use Rattle.redl_left.specs.Known.{AreKnown};
ghost use Rattle.redl_left.specs.Lines.{naming, noted_all};
ghost use Rattle.redl_left.specs.Named.{named_in};
ghost use Rattle.redl_left.specs.Seen.{tables_of};

use crate::element::{Below, note_value};
use crate::fact::Fact;
use crate::find::{Asked, is_part_name};
use crate::row::Row;
use crate::search::{SHORTEST, Search, first_naming};
use crate::seen::Seen;
use crate::tags::Known;
use crate::told::{attribute_or_nothing, lacks_author, value_of};
use crate::usual::usual_author;
use crate::walk::look_plain;
use redl_markup::is_literal;
use redl_tree::{Elem, Node, Plain, Space};
use std::alloc::AllocError;

// Notes a find of a row, of which this is told, unless it is an author who is named already. `Err` means out of memory.
fn gather_value(part: &[u8], row: &Row, value: &[u8], seen: &mut Seen) -> Result<(), AllocError>
    ensures { OnOk result (NameAlike (tables_of seen.new) (noted_all (tables_of seen.old) (found_value part.now row.now value.now))) }
{
    if row.fact == Fact::Name && seen.names(value) {
        return Ok(());
    }
    note_value(part, row, value, seen)
}

// Notes what an element names by the rows. `Err` means out of memory.
fn gather_plain(
    part: &[u8],
    asked: &Asked<'_>,
    kids: &[Node],
    seen: &mut Seen,
) -> Result<(), AllocError>
    ensures { OnOk result (NameAlike (tables_of seen.new)
        (noted_all (tables_of seen.old) (found_plain naming part.now asked.now.parent.now asked.now.space asked.now.local.now asked.now.tail.now (nodes_of kids.now)))) }
{
    let alloc = seen.alloc;
    match first_naming(alloc, asked)? {
        Some(row) => {
            let value = value_of(alloc, part, &row.value, asked, kids)?;
            gather_value(part, row, value.as_bytes(), seen)
        }
        None => Ok(()),
    }
}

// Whether it is plain that an element names nothing, since it has no attribute.
fn has_no_attribute(elem: &Elem) -> bool
    ensures { IsTrue result → (part parent : List ℕ) → found naming part parent (tag_of elem.now) (kids_of elem.now) ≡ [] }
{
    match elem.space() {
        Space::W => elem.tail().is_empty(),
        _ => false,
    }
}

// The same, since its name is too short for a reference, and its tail has no author.
fn names_nothing(elem: &Elem) -> bool
    ensures { IsTrue result → (part parent : List ℕ) → found naming part parent (tag_of elem.now) (kids_of elem.now) ≡ [] }
{
    match elem.space() {
        Space::W => elem.local().len() < SHORTEST && lacks_author(elem.tail()),
        _ => false,
    }
}

// Whether it is plain that the author of a tag with this tail is named already.
fn has_known_author(tail: &[u8], seen: &Seen) -> bool
    ensures { IsTrue result → named_in (tables_of seen.now) Name (value_or_nothing (attribute_value tail.now (codes "author"))) ≡ true }
{
    match usual_author(tail) {
        Some(author) => is_literal(author) && seen.names(author),
        None => false,
    }
}

// Whether it is plain that an element names nothing but an author who is named already.
fn names_known(elem: &Elem, seen: &Seen) -> bool
    ensures { IsTrue result → (part parent : List ℕ)
        → NameAlike (tables_of seen.now) (noted_all (tables_of seen.now) (found naming part parent (tag_of elem.now) (kids_of elem.now))) }
{
    match elem.space() {
        Space::W => elem.local().len() < SHORTEST && has_known_author(elem.tail(), seen),
        _ => false,
    }
}

// Notes what an element names, in a parent with this local name. `Err` means out of memory.
fn gather_own(part: &[u8], parent: &[u8], elem: &Elem, seen: &mut Seen) -> Result<(), AllocError>
    ensures { OnOk result (NameAlike (tables_of seen.new) (noted_all (tables_of seen.old) (found naming part.now parent.now (tag_of elem.now) (kids_of elem.now)))) }
{
    if has_no_attribute(elem) {
        return Ok(());
    }
    if names_known(elem, seen) {
        return Ok(());
    }
    if names_nothing(elem) {
        return Ok(());
    }
    let asked = Asked {
        parent,
        space: elem.space(),
        local: elem.local(),
        tail: elem.tail(),
    };
    gather_plain(part, &asked, elem.kids(), seen)
}

// The same of idle elements that are kept as text. `Err` means out of memory.
fn gather_kept<'t>(
    known: &mut Known<'t>,
    part: &[u8],
    plain: &Plain<'t>,
    seen: &mut Seen,
) -> Result<(), AllocError>
    requires { AreKnown naming known.now }
    ensures noted { (parent : List ℕ) → OnOk result (tables_of seen.new ≡ noted_all (tables_of seen.old) (finds naming part.now parent (idle_nodes plain.now))) }
    ensures known { AreKnown naming known.new }
{
    let search = Search::Naming;
    let below = Below {
        search: &search,
        part,
    };
    look_plain(known, below, plain, seen)
}

/// Notes what all elements among nodes name, in a parent with this local name. `Err` means out of memory.
#[cycle(gather)]
pub(crate) fn gather_nodes<'t>(
    known: &mut Known<'t>,
    part: &[u8],
    parent: &[u8],
    nodes: &[Node<'t>],
    seen: &mut Seen,
) -> Result<(), AllocError>
    requires { AreKnown naming known.now }
    ensures noted { OnOk result (NameAlike (tables_of seen.new) (noted_all (tables_of seen.old) (finds naming part.now parent.now (nodes_of nodes.now)))) }
    ensures known { AreKnown naming known.new }
{
    for node in nodes {
        gather_node(known, part, parent, node, seen)?;
    }
    Ok(())
}

#[cycle(gather)]
fn gather_node<'t>(
    known: &mut Known<'t>,
    part: &[u8],
    parent: &[u8],
    node: &Node<'t>,
    seen: &mut Seen,
) -> Result<(), AllocError>
    requires { AreKnown naming known.now }
    ensures noted { OnOk result (NameAlike (tables_of seen.new) (noted_all (tables_of seen.old) (finds naming part.now parent.now (in_front (item_of node.now) no_nodes)))) }
    ensures known { AreKnown naming known.new }
{
    match node {
        Node::Elem(elem) => gather_elem(known, part, parent, elem, seen),
        Node::Plain(plain) => gather_kept(known, part, plain, seen),
        Node::Bytes(_) => Ok(()),
    }
}

#[cycle(gather)]
fn gather_elem<'t>(
    known: &mut Known<'t>,
    part: &[u8],
    parent: &[u8],
    elem: &Elem<'t>,
    seen: &mut Seen,
) -> Result<(), AllocError>
    requires { AreKnown naming known.now }
    ensures noted { OnOk result (NameAlike (tables_of seen.new)
        (noted_all (tables_of seen.old) (element_finds naming (part_of part.now (tag_of elem.now)) parent.now (tag_of elem.now) (kids_of elem.now)))) }
    ensures known { AreKnown naming known.new }
{
    if is_part_name(elem.space(), elem.local()) {
        let name = attribute_or_nothing(seen.alloc, elem.tail(), b"name")?;
        return gather_inside(known, name.as_bytes(), parent, elem, seen);
    }
    gather_inside(known, part, parent, elem, seen)
}

// The same of an element in this part.
#[cycle(gather)]
fn gather_inside<'t>(
    known: &mut Known<'t>,
    part: &[u8],
    parent: &[u8],
    elem: &Elem<'t>,
    seen: &mut Seen,
) -> Result<(), AllocError>
    requires { AreKnown naming known.now }
    ensures noted { OnOk result (NameAlike (tables_of seen.new)
        (noted_all (tables_of seen.old) (element_finds naming part.now parent.now (tag_of elem.now) (kids_of elem.now)))) }
    ensures known { AreKnown naming known.new }
{
    gather_own(part, parent, elem, seen)?;
    gather_nodes(known, part, elem.local(), elem.kids(), seen)
}
