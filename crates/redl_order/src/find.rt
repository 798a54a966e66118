//! The walk that finds the references among nodes.

ghost use Rattle.std.specs.Prelude.{◌≡◌, ◌++◌, OnOk};
ghost use Rattle.redl_tree.specs.Model.IdleTexts.{idle_nodes};
ghost use Rattle.redl_tree.specs.Model.View.{nodes_of, item_of, tag_of, kids_of};
ghost use Rattle.redl_order.specs.References.{named_by, named_of, references};
ghost use Rattle.redl_order.specs.Inside.Items.{item_references};

use crate::reference::{Reference, is_on, named_kind};
use crate::values::value_in;
use redl_idle::{Shows, show};
use redl_io::Text;
use redl_pairs::lacks_word;
use redl_tree::{Elem, Node, Plain, Space};
use std::alloc::{AllocError, Global};

/// What was found so far.
#[derive(Drop)]
pub(crate) struct Seen {
    /// The allocator of the list.
    pub(crate) alloc: Global,
    /// The references, in the order of the text.
    pub(crate) references: Vec<Reference>,
}

impl Seen {
    // Adds the reference that an element of WordprocessingML is, if it is one. `Err` means out of memory.
    fn add(&mut self, local: &[u8], tail: &[u8]) -> Result<(), AllocError>
        ensures { OnOk result (self.new.references.items ≡ self.old.references.items ++ named_by local.now tail.now) }
    {
        let Some(named) = named_kind(local) else {
            return Ok(());
        };
        let id = Text::copy_of(self.alloc, value_in(tail, b"id"))?;
        let own_sign = is_on(value_in(tail, b"customMarkFollows"));
        self.references.push(Reference {
            named,
            id,
            own_sign,
        })?;
        Ok(())
    }
}

// A place among idle elements: no reference rests on where it stands.
#[derive(Clone, Copy)]
struct Anywhere;

impl Shows<Seen> for Anywhere {
    ghost use Rattle.redl_order.specs.Inside.Encoded.{by_adding, idle_rule};

    type Error = AllocError;

    ghost rule = { idle_rule };

    ghost taking = { by_adding };

    fn put_bytes(&self, _bytes: &[u8], _seen: &mut Seen) -> Result<(), AllocError> {
        Ok(())
    }

    fn enter(
        &self,
        local: &[u8],
        tail: &[u8],
        _ahead: &[u8],
        seen: &mut Seen,
    ) -> Result<Anywhere, AllocError> {
        seen.add(local, tail)?;
        Ok(*self)
    }

    fn leave(&self, _seen: &mut Seen) -> Result<(), AllocError> {
        Ok(())
    }
}

// Adds the references among idle elements that are kept as text. Most texts lack the word in which the name of each reference ends,
// and are not read. `Err` means out of memory.
fn find_idle(plain: &Plain<'_>, seen: &mut Seen) -> Result<(), AllocError>
    ensures { OnOk result (seen.new.references.items ≡ seen.old.references.items ++ references (idle_nodes plain.now)) }
{
    if lacks_word(plain.text(), b"Reference") {
        return Ok(());
    }
    show(plain, &Anywhere, seen)
}

/// Adds the references among nodes, in their order. `Err` means out of memory.
#[cycle(find)]
pub(crate) fn find_nodes(nodes: &[Node], seen: &mut Seen) -> Result<(), AllocError>
    ensures { OnOk result (seen.new.references.items ≡ seen.old.references.items ++ references (nodes_of nodes.now)) }
{
    for node in nodes {
        find_node(node, seen)?;
    }
    Ok(())
}

#[cycle(find)]
fn find_node(node: &Node, seen: &mut Seen) -> Result<(), AllocError>
    ensures { OnOk result (seen.new.references.items ≡ seen.old.references.items ++ item_references (item_of node.now)) }
{
    match node {
        Node::Elem(elem) => find_elem(elem, seen),
        Node::Plain(plain) => find_idle(plain, seen),
        Node::Bytes(_) => Ok(()),
    }
}

#[cycle(find)]
fn find_elem(elem: &Elem, seen: &mut Seen) -> Result<(), AllocError>
    ensures { OnOk result (seen.new.references.items ≡ seen.old.references.items ++ (named_of (tag_of elem.now) ++ references (kids_of elem.now))) }
{
    add_own(elem, seen)?;
    find_nodes(elem.kids(), seen)
}

// Adds the reference that an element is, if it is one. `Err` means out of memory.
fn add_own(elem: &Elem, seen: &mut Seen) -> Result<(), AllocError>
    ensures { OnOk result (seen.new.references.items ≡ seen.old.references.items ++ named_of (tag_of elem.now)) }
{
    match elem.space() {
        Space::W => seen.add(elem.local(), elem.tail()),
        _ => Ok(()),
    }
}
