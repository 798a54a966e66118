//! Cells of one table that were inserted or deleted, and changes of one table.

ghost use Rattle.std.specs.Prelude.{◌≡◌, ◌++◌, None, OnOk};
ghost use Rattle.redl_opc.specs.Stories.{stories_of_part};
ghost use Rattle.redl_edits.specs.Alike.{revision_at};
ghost use Rattle.redl_tree.specs.Decisions.Packages.{stories};
ghost use Rattle.redl_tree.specs.Model.View.{item_of, kids_of, nodes_of, tag_of};
ghost use Rattle.redl_edits.specs.Inside.Items.{item_tabled};
ghost use Rattle.redl_edits.specs.Tabled.{has_sort, is_of_sort, is_of_table, own_tabled, pair_tabled, pairs_of_sort, table_pairs, tabled_in, tabled_pairs};

use crate::alike::{are_alike_at, revision_at};
use crate::tables::table_revisions;
use redl_classes::Pair;
use redl_index::Index;
use redl_kinds::RevKind;
use redl_opc::Package;
use redl_tree::{Elem, Node, Prop, Trace, Word, is_word};
use std::alloc::{AllocError, Global};

/// Which revisions of a table are looked at together.
#[derive(Clone, Copy)]
pub(crate) enum Sort {
    /// Inserted cells.
    Inserted,
    /// Deleted cells.
    Deleted,
    /// Changes of the properties of the table, of its exceptions, rows and cells.
    Changed,
}

/// Adds the pairs of revisions of each table. `Err` means out of memory, here and below.
pub(crate) fn add_tabled(
    alloc: Global,
    pkg: &Package,
    index: &Index,
    pairs: &mut Vec<Pair>,
) -> Result<(), AllocError>
    ensures { OnOk result (pairs.new.items ≡ pairs.old.items ++ tabled_pairs index.now (stories pkg.now)) }
{
    for part in 0..pkg.parts() {
        add_part(alloc, pkg, part, index, pairs)?;
    }
    Ok(())
}

fn add_part(
    alloc: Global,
    pkg: &Package,
    part: u32,
    index: &Index,
    pairs: &mut Vec<Pair>,
) -> Result<(), AllocError>
    ensures { OnOk result (pairs.new.items ≡ pairs.old.items ++ tabled_pairs index.now (stories_of_part pkg.now part)) }
{
    match pkg.story(part) {
        Some(root) => add_nodes(alloc, root.kids(), index, pairs),
        None => Ok(()),
    }
}

#[cycle(tabled)]
fn add_nodes(
    alloc: Global,
    nodes: &[Node],
    index: &Index,
    pairs: &mut Vec<Pair>,
) -> Result<(), AllocError>
    ensures { OnOk result (pairs.new.items ≡ pairs.old.items ++ tabled_in index.now (nodes_of nodes.now)) }
{
    for node in nodes {
        add_node(alloc, node, index, pairs)?;
    }
    Ok(())
}

#[cycle(tabled)]
fn add_node(
    alloc: Global,
    node: &Node,
    index: &Index,
    pairs: &mut Vec<Pair>,
) -> Result<(), AllocError>
    ensures { OnOk result (pairs.new.items ≡ pairs.old.items ++ item_tabled index.now (item_of node.now)) }
{
    match node {
        Node::Elem(elem) => add_elem(alloc, elem, index, pairs),
        Node::Plain(_) | Node::Bytes(_) => Ok(()),
    }
}

#[cycle(tabled)]
fn add_elem(
    alloc: Global,
    elem: &Elem,
    index: &Index,
    pairs: &mut Vec<Pair>,
) -> Result<(), AllocError>
    ensures { OnOk result (pairs.new.items ≡ pairs.old.items ++ (own_tabled index.now (tag_of elem.now) (kids_of elem.now) ++ tabled_in index.now (kids_of elem.now))) }
{
    add_own(alloc, elem, index, pairs)?;
    add_nodes(alloc, elem.kids(), index, pairs)
}

// It isn't inlined, so that each depth takes little stack.
#[inline(never)]
fn add_own(
    alloc: Global,
    elem: &Elem,
    index: &Index,
    pairs: &mut Vec<Pair>,
) -> Result<(), AllocError>
    ensures { OnOk result (pairs.new.items ≡ pairs.old.items ++ own_tabled index.now (tag_of elem.now) (kids_of elem.now)) }
{
    if !is_word(elem, Word::Tbl) {
        return Ok(());
    }
    let table = table_revisions(alloc, elem.kids())?;
    add_table(index, &table, pairs)
}

fn add_table(index: &Index, table: &[u32], pairs: &mut Vec<Pair>) -> Result<(), AllocError>
    ensures { OnOk result (pairs.new.items ≡ pairs.old.items ++ table_pairs index.now table.now) }
{
    add_sort(index, Sort::Inserted, table, pairs)?;
    add_sort(index, Sort::Deleted, table, pairs)?;
    add_sort(index, Sort::Changed, table, pairs)
}

fn add_sort(
    index: &Index,
    sort: Sort,
    table: &[u32],
    pairs: &mut Vec<Pair>,
) -> Result<(), AllocError>
    ensures { OnOk result (pairs.new.items ≡ pairs.old.items ++ pairs_of_sort index.now sort None table.now) }
{
    let mut last = None;
    for number in table {
        if has_sort(index, sort, *number) {
            add_pair(index, last, *number, pairs)?;
            last = Some(*number);
        }
    }
    Ok(())
}

fn add_pair(
    index: &Index,
    last: Option<u32>,
    two: u32,
    pairs: &mut Vec<Pair>,
) -> Result<(), AllocError>
    ensures { OnOk result (pairs.new.items ≡ pairs.old.items ++ pair_tabled index.now last two) }
{
    if let Some(one) = last {
        if are_alike_at(index, one, two) {
            pairs.push(Pair { one, two })?;
        }
    }
    Ok(())
}

fn has_sort(index: &Index, sort: Sort, number: u32) -> bool
    ensures { result ≡ has_sort sort (revision_at index.now number) }
{
    let Some(revision) = revision_at(index, number) else {
        return false;
    };
    is_of_sort(sort, revision.kind)
}

fn is_of_sort(sort: Sort, kind: RevKind) -> bool
    ensures { result ≡ is_of_sort sort kind }
{
    match (sort, kind) {
        (Sort::Inserted, RevKind::Cell(Trace::Ins)) => true,
        (Sort::Deleted, RevKind::Cell(Trace::Del)) => true,
        (Sort::Changed, RevKind::Change(what)) => is_of_table(what),
        _ => false,
    }
}

fn is_of_table(what: Prop) -> bool
    ensures { result ≡ is_of_table what }
{
    match what {
        Prop::Table | Prop::Except | Prop::Row | Prop::Cell => true,
        Prop::Run | Prop::Para | Prop::Sect => false,
    }
}
