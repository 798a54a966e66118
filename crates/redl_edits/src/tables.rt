//! The revisions of a table.

ghost use Rattle.std.specs.Prelude.{◌≡◌, ◌++◌, IfOk, OnOk};
ghost use Rattle.redl_tree.specs.Model.View.{item_of, kids_of, nodes_of, tag_of};
ghost use Rattle.redl_edits.specs.Inside.Items.{item_table_revisions};
ghost use Rattle.redl_edits.specs.Tables.{in_table, own_revision, table_revisions};

use redl_tree::{Elem, Kind, Node, Word, is_word};
use std::alloc::{AllocError, Global};

/// The revisions of a table with these kids, but for those in tables inside it. `Err` means out of memory, here and below.
pub(crate) fn table_revisions(alloc: Global, kids: &[Node]) -> Result<Vec<u32>, AllocError>
    ensures { IfOk result (λ found. found.items ≡ table_revisions (nodes_of kids.now)) }
{
    let mut found = Vec::new(alloc);
    add_nodes(kids, &mut found)?;
    Ok(found)
}

#[cycle(table)]
fn add_nodes(nodes: &[Node], found: &mut Vec<u32>) -> Result<(), AllocError>
    ensures { OnOk result (found.new.items ≡ found.old.items ++ table_revisions (nodes_of nodes.now)) }
{
    for node in nodes {
        add_node(node, found)?;
    }
    Ok(())
}

#[cycle(table)]
fn add_node(node: &Node, found: &mut Vec<u32>) -> Result<(), AllocError>
    ensures { OnOk result (found.new.items ≡ found.old.items ++ item_table_revisions (item_of node.now)) }
{
    match node {
        Node::Elem(elem) => add_elem(elem, found),
        Node::Plain(_) | Node::Bytes(_) => Ok(()),
    }
}

#[cycle(table)]
fn add_elem(elem: &Elem, found: &mut Vec<u32>) -> Result<(), AllocError>
    ensures { OnOk result (found.new.items ≡ found.old.items ++ in_table (tag_of elem.now) (table_revisions (kids_of elem.now))) }
{
    if is_word(elem, Word::Tbl) {
        return Ok(());
    }
    add_own(elem, found)?;
    add_nodes(elem.kids(), found)
}

fn add_own(elem: &Elem, found: &mut Vec<u32>) -> Result<(), AllocError>
    ensures { OnOk result (found.new.items ≡ found.old.items ++ own_revision (tag_of elem.now)) }
{
    match elem.kind() {
        Kind::Plain => Ok(()),
        _ => {
            found.push(elem.rev())?;
            Ok(())
        }
    }
}
