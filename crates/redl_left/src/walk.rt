//! The walk over all nodes of a package.

ghost use Rattle.std.specs.Prelude.{◌≡◌, List, ℕ, OnOk};
ghost use Rattle.redl_tree.specs.Model.Nodes.{no_nodes, in_front};
ghost use Rattle.redl_tree.specs.Model.IdleTexts.{idle_nodes};
ghost use Rattle.redl_tree.specs.Model.View.{nodes_of, item_of, tag_of, kids_of};
ghost use Rattle.redl_left.specs.Finds.{finds, found, found_by, element_finds, kind_in, part_of};
ghost use Rattle.redl_left.specs.Known.{AreKnown};
ghost use Rattle.redl_left.specs.Lines.{noted_all};
ghost use Rattle.redl_left.specs.Search.{table_of};
ghost use Rattle.redl_left.specs.Seen.{tables_of};

use crate::element::{Below, note_plain};
use crate::find::{Asked, is_part_name, member_fact};
use crate::names_told::{note_names, note_text};
use crate::pieces::look_pieces;
use crate::search::Search;
use crate::seen::Seen;
use crate::tags::Known;
use crate::told::attribute_or_nothing;
use redl_tree::{Elem, Kind, Node, Plain};
use std::alloc::AllocError;

// The kind by which an element is found.
fn kind_in(search: &Search<'_>, kind: Kind) -> Kind
    ensures { result ≡ kind_in (table_of search.now) kind }
{
    if search.by_kind() { kind } else { Kind::Plain }
}

// Notes what an element is by its kind, or by the rows, in a parent with this local name. `Err` means out of memory.
fn note_own(
    below: Below<'_, '_, '_>,
    parent: &[u8],
    elem: &Elem,
    seen: &mut Seen,
) -> Result<(), AllocError>
    ensures { let tag = tag_of elem.now in OnOk result (tables_of seen.new
        ≡ noted_all (tables_of seen.old) (found_by (kind_in (table_of below.entry.search.now) tag.kind) (table_of below.entry.search.now) below.entry.part.now parent.now tag.space tag.local tag.tail (kids_of elem.now))) }
{
    let kind = kind_in(below.search, elem.kind());
    if kind == Kind::Plain {
        let asked = Asked {
            parent,
            space: elem.space(),
            local: elem.local(),
            tail: elem.tail(),
        };
        return note_plain(below, &asked, elem.kids(), seen);
    }
    match member_fact(kind) {
        Some(fact) => seen.note(fact, below.part, b""),
        None => Ok(()),
    }
}

// Notes what an element is, and the names in its tail, in a parent with this local name. `Err` means out of memory.
fn note_elem(
    below: Below<'_, '_, '_>,
    parent: &[u8],
    elem: &Elem,
    seen: &mut Seen,
) -> Result<(), AllocError>
    ensures { OnOk result (tables_of seen.new
        ≡ noted_all (tables_of seen.old) (found (table_of below.entry.search.now) below.entry.part.now parent.now (tag_of elem.now) (kids_of elem.now))) }
{
    note_own(below, parent, elem, seen)?;
    note_names(below.search, below.part, elem.tail(), seen)
}

/// Notes what idle elements are that are kept as text. `Err` means out of memory.
pub(crate) fn look_plain<'t>(
    known: &mut Known<'t>,
    below: Below<'_, '_, '_>,
    plain: &Plain<'t>,
    seen: &mut Seen,
) -> Result<(), AllocError>
    requires { AreKnown (table_of below.search.now) known.now }
    ensures noted { (parent : List ℕ) → OnOk result (tables_of seen.new ≡ noted_all (tables_of seen.old) (finds (table_of below.entry.search.now) below.entry.part.now parent (idle_nodes plain.now))) }
    ensures known { AreKnown (table_of below.entry.search.now) known.new }
{
    if below.search.passes(plain.text()) {
        return Ok(());
    }
    look_pieces(known, below, plain.text(), seen)
}

/// Notes what all elements among nodes are, in a parent with this local name. `Err` means out of memory.
#[cycle(look)]
pub(crate) fn look_nodes<'t>(
    known: &mut Known<'t>,
    below: Below<'_, '_, '_>,
    parent: &[u8],
    nodes: &[Node<'t>],
    seen: &mut Seen,
) -> Result<(), AllocError>
    requires { AreKnown (table_of below.search.now) known.now }
    ensures noted { OnOk result (tables_of seen.new ≡ noted_all (tables_of seen.old) (finds (table_of below.entry.search.now) below.entry.part.now parent.now (nodes_of nodes.now))) }
    ensures known { AreKnown (table_of below.entry.search.now) known.new }
{
    for node in nodes {
        look_node(known, below, parent, node, seen)?;
    }
    Ok(())
}

#[cycle(look)]
fn look_node<'t>(
    known: &mut Known<'t>,
    below: Below<'_, '_, '_>,
    parent: &[u8],
    node: &Node<'t>,
    seen: &mut Seen,
) -> Result<(), AllocError>
    requires { AreKnown (table_of below.search.now) known.now }
    ensures noted { OnOk result (tables_of seen.new ≡ noted_all (tables_of seen.old) (finds (table_of below.entry.search.now) below.entry.part.now parent.now (in_front (item_of node.now) no_nodes))) }
    ensures known { AreKnown (table_of below.entry.search.now) known.new }
{
    match node {
        Node::Elem(elem) => look_elem(known, below, parent, elem, seen),
        Node::Plain(plain) => look_plain(known, below, plain, seen),
        Node::Bytes(bytes) => note_text(below.search, below.part, bytes, seen),
    }
}

#[cycle(look)]
fn look_elem<'t>(
    known: &mut Known<'t>,
    below: Below<'_, '_, '_>,
    parent: &[u8],
    elem: &Elem<'t>,
    seen: &mut Seen,
) -> Result<(), AllocError>
    requires { AreKnown (table_of below.search.now) known.now }
    ensures noted { OnOk result (tables_of seen.new
        ≡ noted_all (tables_of seen.old) (element_finds (table_of below.entry.search.now) (part_of below.entry.part.now (tag_of elem.now)) parent.now (tag_of elem.now) (kids_of elem.now))) }
    ensures known { AreKnown (table_of below.entry.search.now) known.new }
{
    if is_part_name(elem.space(), elem.local()) {
        let name = attribute_or_nothing(seen.alloc, elem.tail(), b"name")?;
        let inside = Below {
            search: below.search,
            part: name.as_bytes(),
        };
        return look_inside(known, inside, parent, elem, seen);
    }
    look_inside(known, below, parent, elem, seen)
}

// The same of an element in this part.
#[cycle(look)]
fn look_inside<'t>(
    known: &mut Known<'t>,
    below: Below<'_, '_, '_>,
    parent: &[u8],
    elem: &Elem<'t>,
    seen: &mut Seen,
) -> Result<(), AllocError>
    requires { AreKnown (table_of below.search.now) known.now }
    ensures noted { OnOk result (tables_of seen.new
        ≡ noted_all (tables_of seen.old) (element_finds (table_of below.entry.search.now) below.entry.part.now parent.now (tag_of elem.now) (kids_of elem.now))) }
    ensures known { AreKnown (table_of below.entry.search.now) known.new }
{
    note_elem(below, parent, elem, seen)?;
    look_nodes(known, below, elem.local(), elem.kids(), seen)
}
