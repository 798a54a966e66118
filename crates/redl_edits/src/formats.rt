//! What each change of properties changes.

ghost use Rattle.std.specs.Prelude.{◌≡◌, ◌++◌, IfOk, OnOk};
ghost use Rattle.redl_opc.specs.Stories.{stories_of_part};
ghost use Rattle.redl_tree.specs.Decisions.Packages.{stories};
ghost use Rattle.redl_tree.specs.Model.View.{item_of, kids_of, nodes_of, tag_of};
ghost use Rattle.redl_edits.specs.Formats.{formats, own_format, stories_formats};
ghost use Rattle.redl_edits.specs.Inside.Items.{item_kids_formats, item_own_formats};

use redl_changed::{ChangedSaid, changed_of};
use redl_opc::Package;
use redl_tree::{Elem, Kind, Node};
use std::alloc::{AllocError, Global};

/// A revision, and which properties it changes.
#[derive(Drop)]
pub(crate) struct Format {
    /// Its number.
    pub(crate) revision: u32,
    /// The properties.
    pub(crate) said: ChangedSaid,
}

/// What each change of properties in the stories of a package changes. `Err` means out of memory, here and below.
pub(crate) fn stories_formats(alloc: Global, pkg: &Package) -> Result<Vec<Format>, AllocError>
    ensures { IfOk result (λ found. found.items ≡ stories_formats (stories pkg.now)) }
{
    let mut found = Vec::new(alloc);
    add_stories(alloc, pkg, &mut found)?;
    Ok(found)
}

fn add_stories(alloc: Global, pkg: &Package, found: &mut Vec<Format>) -> Result<(), AllocError>
    ensures { OnOk result (found.new.items ≡ found.old.items ++ stories_formats (stories pkg.now)) }
{
    for part in 0..pkg.parts() {
        add_part(alloc, pkg, part, found)?;
    }
    Ok(())
}

fn add_part(
    alloc: Global,
    pkg: &Package,
    part: u32,
    found: &mut Vec<Format>,
) -> Result<(), AllocError>
    ensures { OnOk result (found.new.items ≡ found.old.items ++ stories_formats (stories_of_part pkg.now part)) }
{
    match pkg.story(part) {
        Some(root) => add_nodes(alloc, root.kids(), found),
        None => Ok(()),
    }
}

#[cycle(formats)]
fn add_nodes(alloc: Global, nodes: &[Node], found: &mut Vec<Format>) -> Result<(), AllocError>
    ensures { OnOk result (found.new.items ≡ found.old.items ++ formats (nodes_of nodes.now) (nodes_of nodes.now)) }
{
    for node in nodes {
        add_own(alloc, nodes, node, found)?;
        add_kids(alloc, node, found)?;
    }
    Ok(())
}

#[cycle(formats)]
fn add_kids(alloc: Global, node: &Node, found: &mut Vec<Format>) -> Result<(), AllocError>
    ensures { OnOk result (found.new.items ≡ found.old.items ++ item_kids_formats (item_of node.now)) }
{
    match node {
        Node::Elem(elem) => add_nodes(alloc, elem.kids(), found),
        Node::Plain(_) | Node::Bytes(_) => Ok(()),
    }
}

// It isn't inlined, so that each depth takes little stack.
#[inline(never)]
fn add_own(
    alloc: Global,
    present: &[Node],
    node: &Node,
    found: &mut Vec<Format>,
) -> Result<(), AllocError>
    ensures { OnOk result (found.new.items ≡ found.old.items ++ item_own_formats (nodes_of present.now) (item_of node.now)) }
{
    match node {
        Node::Elem(elem) => add_change(alloc, present, elem, found),
        Node::Plain(_) | Node::Bytes(_) => Ok(()),
    }
}

fn add_change(
    alloc: Global,
    present: &[Node],
    elem: &Elem,
    found: &mut Vec<Format>,
) -> Result<(), AllocError>
    ensures { OnOk result (found.new.items ≡ found.old.items ++ own_format (nodes_of present.now) (kids_of elem.now) (tag_of elem.now).rev (tag_of elem.now).kind) }
{
    match elem.kind() {
        Kind::Change(what) => {
            let said = changed_of(alloc, what, present, elem.kids())?;
            found.push(Format {
                revision: elem.rev(),
                said,
            })?;
            Ok(())
        }
        _ => Ok(()),
    }
}
