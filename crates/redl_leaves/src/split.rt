//! How a story is split into leaves and containers, from the left.

ghost use Rattle.std.specs.Prelude.{◌≡◌, ◌≤◌, ◌<◌, ◌^◌, ◌++◌, ◌∷◌, [], List, Option, None, Some, IfOk, OnOk, OnErr, IsOk, false, vec_len, vec_capacity};
ghost use Rattle.redl_paras.specs.Pieces.{is_other};
ghost use Rattle.redl_leaves.specs.Inside.Splits.{AddsLeaf, AddsLone, AddsView, AddsSibling, AddsSiblings, ended, chain_of, whole_of, whole, thin_siblings, item_siblings, share_at, owned_at};
ghost use Rattle.redl_leaves.specs.Spots.{spot_of};
ghost use Rattle.redl_leaves.specs.View.{SlotView, container_view, view_of, container_of, states_of};
ghost use Rattle.redl_tree.specs.Leaves.Containers.{opens};
ghost use Rattle.redl_tree.specs.Leaves.Living.{owned};
ghost use Rattle.redl_tree.specs.Leaves.Slots.{Sibling, has_mark, para_sibling, thick_sibling, open_sibling, sibling, slots_in};
ghost use Rattle.redl_tree.specs.Leaves.States.{States, joined_states, fresh_states, fresh_tally};
ghost use Rattle.redl_tree.specs.Model.Count.{count, item_count};
ghost use Rattle.redl_tree.specs.Model.Folds.{nodes_in};
ghost use Rattle.redl_tree.specs.Model.Nodes.{Tag, Nodes, no_nodes, element};
ghost use Rattle.redl_tree.specs.Model.View.{nodes_of, item_of, tag_of, kids_of};
ghost use Rattle.redl_tree.specs.Roles.Lists.{is_block_list};
ghost use Rattle.redl_tree.specs.declared.kinds.Space.TheVariants.{W};

use crate::marks::is_marked;
use crate::open::open_first;
use crate::slots::{Container, Leaf, Slot, Tally};
use crate::spot::Spot;
use redl_laid::Laid;
use redl_resolve::Next;
use redl_tree::{Elem, Node, Word, is_thick, is_word};
use std::alloc::{AllocError, Global};
use std::mem;

/// What is split of a list so far.
#[derive(Drop)]
pub(crate) struct Splitting<'a> {
    /// The slots.
    pub slots: Vec<Slot<'a>>,
    /// The chain of paragraphs that waits.
    pub chain: Option<Vec<Node<'a>>>,
    /// The thin nodes after it.
    pub tail: Vec<Node<'a>>,
}

// Adds a leaf with these nodes. `Err` means out of memory, and comes only where the list had no room.
fn push_leaf<'a>(
    slots: &mut Vec<Slot<'a>>,
    nodes: Vec<Node<'a>>,
    among_blocks: bool,
    next: Next,
) -> Result<(), AllocError>
    ensures added { OnOk result (AddsLeaf among_blocks (is_other next) (nodes_of nodes.entry.items) slots.old.items slots.new.items) }
    ensures full { OnErr result (vec_capacity slots.old ≤ vec_len slots.old) }
{
    let slot = Slot::Leaf(Leaf {
        original: nodes,
        present: None,
        among_blocks,
        next,
    });
    slots.push(slot)?;
    Ok(())
}

// Adds a node as a leaf by itself.
fn push_one<'a>(
    alloc: Global,
    slots: &mut Vec<Slot<'a>>,
    node: Node<'a>,
    among_blocks: bool,
) -> Result<(), AllocError>
    ensures { OnOk result (AddsLeaf among_blocks false (nodes_of (node.entry ∷ [])) slots.old.items slots.new.items) }
{
    let nodes = one(alloc, node)?;
    push_leaf(slots, nodes, among_blocks, Next::End)?;
    Ok(())
}

fn one<'a>(alloc: Global, node: Node<'a>) -> Result<Vec<Node<'a>>, AllocError>
    ensures { IfOk result (λ nodes. nodes.items ≡ node.entry ∷ []) }
{
    let mut nodes = Vec::with_capacity(alloc, 1)?;
    nodes.push(node)?;
    Ok(nodes)
}

// Adds each node of this text as a leaf by itself.
fn push_kept<'a>(
    alloc: Global,
    slots: &mut Vec<Slot<'a>>,
    laid: Laid<'a>,
    among_blocks: bool,
) -> Result<(), AllocError>
    ensures { OnOk result (AddsLone among_blocks (nodes_in W laid.entry) slots.old.items slots.new.items) }
{
    let mut left = laid;
    while let Some((first, rest)) = left.first() {
        let node = open_first(alloc, first)?;
        push_one(alloc, slots, node, among_blocks)?;
        left = rest;
    }
    Ok(())
}

// Adds a node as a leaf by itself. Of elements that are kept as their text, each node is one.
fn push_lone<'a>(
    alloc: Global,
    slots: &mut Vec<Slot<'a>>,
    node: Node<'a>,
    among_blocks: bool,
) -> Result<(), AllocError>
    ensures { OnOk result (AddsLone among_blocks (nodes_of (node.entry ∷ [])) slots.old.items slots.new.items) }
{
    match node {
        Node::Elem(elem) => push_one(alloc, slots, Node::Elem(elem), among_blocks),
        Node::Bytes(text) => push_one(alloc, slots, Node::Bytes(text), among_blocks),
        Node::Plain(plain) => push_kept(alloc, slots, Laid::of(&plain), among_blocks),
    }
}

// Adds each of these nodes as a leaf by itself.
fn push_each<'a>(
    alloc: Global,
    slots: &mut Vec<Slot<'a>>,
    nodes: Vec<Node<'a>>,
    among_blocks: bool,
) -> Result<(), AllocError>
    ensures { OnOk result (AddsLone among_blocks (nodes_of nodes.entry.items) slots.old.items slots.new.items) }
{
    for node in nodes {
        push_lone(alloc, slots, node, among_blocks)?;
    }
    Ok(())
}

impl<'a> Splitting<'a> {
    // Ends the chain that waits, where `next` comes after it.
    fn end_chain(&mut self, alloc: Global, among_blocks: bool, next: Next) -> Result<(), AllocError>
        ensures chain { OnOk result (self.new.chain ≡ None) }
        ensures slots { OnOk result ((rest : States) → joined_states (states_of self.new.slots.items) rest
            ≡ joined_states (states_of self.old.slots.items) (ended among_blocks (is_other next) (chain_of self.old.chain) (nodes_of self.old.tail.items) rest)) }

        // Where no chain waits it takes no memory.
        ensures succeeds { self.old.chain ≡ None → IsOk result }
    {
        match mem::replace(&mut self.chain, None) {
            None => Ok(()),
            Some(chain) => {
                let tail = mem::replace(&mut self.tail, Vec::new(alloc));
                push_leaf(&mut self.slots, chain, among_blocks, next)?;
                push_each(alloc, &mut self.slots, tail, among_blocks)?;
                Ok(())
            }
        }
    }

    // Adds a thin node, or idle ones that are kept as their text.
    fn add_thin(
        &mut self,
        alloc: Global,
        node: Node<'a>,
        among_blocks: bool,
    ) -> Result<(), AllocError>
        ensures { OnOk result (AddsSiblings among_blocks self.old self.new (thin_siblings (nodes_of (node.entry ∷ [])))) }
    {
        match &self.chain {
            None => {
                push_lone(alloc, &mut self.slots, node, among_blocks)?;
                Ok(())
            }
            Some(_) => {
                self.tail.push(node)?;
                Ok(())
            }
        }
    }

    // Adds a thick node that is neither a paragraph among blocks nor a container.
    fn add_thick(
        &mut self,
        alloc: Global,
        node: Node<'a>,
        among_blocks: bool,
    ) -> Result<(), AllocError>
        ensures { OnOk result (AddsSibling among_blocks self.old self.new (thick_sibling (nodes_of (node.entry ∷ [])))) }
    {
        self.end_chain(alloc, among_blocks, Next::Other)?;
        push_one(alloc, &mut self.slots, node, among_blocks)?;
        Ok(())
    }

    // Adds a paragraph among blocks.
    fn add_para(
        &mut self,
        alloc: Global,
        elem: Elem<'a>,
        among_blocks: bool,
    ) -> Result<(), AllocError>
        ensures { OnOk result (AddsSibling among_blocks self.old self.new
            (para_sibling (has_mark (kids_of elem.entry)) (element (tag_of elem.entry) (kids_of elem.entry) no_nodes))) }
    {
        let marked = is_marked(elem.kids());
        match mem::replace(&mut self.chain, None) {
            None => {
                self.begin(alloc, Node::Elem(elem), marked, among_blocks)?;
                Ok(())
            }
            Some(chain) => {
                self.go_on(chain, Node::Elem(elem), marked, among_blocks)?;
                Ok(())
            }
        }
    }

    // Adds a paragraph where no chain waits.
    fn begin(
        &mut self,
        alloc: Global,
        node: Node<'a>,
        marked: bool,
        among_blocks: bool,
    ) -> Result<(), AllocError>
        requires { self.old.chain ≡ None }
        ensures { OnOk result (AddsSibling among_blocks self.old self.new (para_sibling marked (nodes_of (node.entry ∷ [])))) }
    {
        if marked {
            self.chain = Some(one(alloc, node)?);
            self.tail = Vec::new(alloc);
            return Ok(());
        }
        push_one(alloc, &mut self.slots, node, among_blocks)?;
        Ok(())
    }

    // Adds a paragraph to this chain, which waited.
    fn go_on(
        &mut self,
        chain: Vec<Node<'a>>,
        node: Node<'a>,
        marked: bool,
        among_blocks: bool,
    ) -> Result<(), AllocError>
        requires { self.old.chain ≡ None }
        ensures { OnOk result ((ancestors : List Tag) → (later : List Sibling) → whole among_blocks ancestors self.new later
            ≡ whole_of among_blocks ancestors self.old.slots.items (Some (nodes_of chain.entry.items)) (nodes_of self.old.tail.items) (para_sibling marked (nodes_of (node.entry ∷ [])) ∷ later)) }
    {
        let mut chain = chain;
        chain.append(&mut self.tail)?;
        chain.push(node)?;
        if marked {
            self.chain = Some(chain);
            return Ok(());
        }
        push_leaf(&mut self.slots, chain, among_blocks, Next::End)?;
        Ok(())
    }

    // Adds a container.
    fn add_container(
        &mut self,
        alloc: Global,
        container: Container<'a>,
        among_blocks: bool,
    ) -> Result<(), AllocError>
        ensures { OnOk result ((tag : Tag) → (kids : Nodes) → (ancestors : List Tag)
            → container_of container.entry ≡ container_view tag (fresh_tally (owned (tag ∷ ancestors) (slots_in opens (tag ∷ ancestors) kids))) (fresh_states (tag ∷ ancestors) (slots_in opens (tag ∷ ancestors) kids))
            → (later : List Sibling) → whole among_blocks ancestors self.new later ≡ whole among_blocks ancestors self.old (open_sibling tag kids (slots_in opens (tag ∷ ancestors) kids) ∷ later)) }
    {
        self.end_chain(alloc, among_blocks, Next::Other)?;
        let container = Box::new(alloc, container)?;
        self.slots.push(Slot::Container(container))?;
        Ok(())
    }
}

// How many own rows or cells these slots add to the container round them.
fn count_owned(slots: &[Slot], spot: Spot) -> u32
    ensures { owned_at spot (states_of slots.now) < 2 ^ 32 → result ≡ owned_at spot (states_of slots.now) }
{
    let mut owned: u32 = 0;
    for slot in slots {
        owned = owned.saturating_add(share(slot, spot));
    }
    owned
}

fn share(slot: &Slot, spot: Spot) -> u32
    ensures { result ≡ share_at spot (view_of slot.now) }
{
    match slot {
        Slot::Leaf(_) => 0,
        Slot::Container(container) => share_of(container, spot),
    }
}

fn share_of(container: &Container, spot: Spot) -> u32
    ensures { result ≡ share_at spot (container_of container.now) }
{
    if spot.is_own(&container.elem) {
        return 1;
    }
    if spot.holds_own_of_ancestor(&container.elem) {
        return container.tally.owned;
    }
    0
}

/// The slots of the kids of a container, as they are at first. `spot` is where the kids stand.
#[cycle(split)]
pub(crate) fn split_kids<'a>(
    alloc: Global,
    kids: Vec<Node<'a>>,
    spot: Spot,
) -> Result<Vec<Slot<'a>>, AllocError>
    ensures { IfOk result (λ slots. (parent : Tag) → (above : List Tag) → spot ≡ spot_of (parent ∷ above) → count (nodes_of kids.entry.items) < 2 ^ 32
        → states_of slots.items ≡ fresh_states (parent ∷ above) (slots_in opens (parent ∷ above) (nodes_of kids.entry.items))) }
{
    let mut split = Splitting {
        slots: Vec::with_capacity(alloc, kids.len())?,
        chain: None,
        tail: Vec::new(alloc),
    };
    for node in kids {
        split_node(alloc, node, spot, &mut split)?;
    }
    split.end_chain(alloc, spot.among_blocks(), Next::End)?;
    Ok(split.slots)
}

#[cycle(split)]
fn split_node<'a>(
    alloc: Global,
    node: Node<'a>,
    spot: Spot,
    split: &mut Splitting<'a>,
) -> Result<(), AllocError>
    ensures { OnOk result ((parent : Tag) → (above : List Tag) → spot ≡ spot_of (parent ∷ above) → item_count (item_of node.entry) < 2 ^ 32 → (later : List Sibling)
        → whole (is_block_list spot.site.place) (parent ∷ above) split.new later ≡ whole (is_block_list spot.site.place) (parent ∷ above) split.old (item_siblings opens (parent ∷ above) (item_of node.entry) ++ later)) }
{
    match node {
        Node::Elem(elem) => split_elem(alloc, elem, spot, split),
        Node::Bytes(text) => {
            split.add_thin(alloc, Node::Bytes(text), spot.among_blocks())?;
            Ok(())
        }
        Node::Plain(plain) => {
            split.add_thin(alloc, Node::Plain(plain), spot.among_blocks())?;
            Ok(())
        }
    }
}

#[cycle(split)]
fn split_elem<'a>(
    alloc: Global,
    elem: Elem<'a>,
    spot: Spot,
    split: &mut Splitting<'a>,
) -> Result<(), AllocError>
    ensures { OnOk result ((parent : Tag) → (above : List Tag) → spot ≡ spot_of (parent ∷ above) → count (kids_of elem.entry) < 2 ^ 32 → (later : List Sibling)
        → whole (is_block_list spot.site.place) (parent ∷ above) split.new later
        ≡ whole (is_block_list spot.site.place) (parent ∷ above) split.old
        (sibling opens (parent ∷ above) (tag_of elem.entry) (kids_of elem.entry) (slots_in opens (tag_of elem.entry ∷ parent ∷ above) (kids_of elem.entry)) ∷ later)) }
{
    if spot.opens(&elem) {
        let container = split_container(alloc, elem, spot)?;
        split.add_container(alloc, container, spot.among_blocks())?;
        return Ok(());
    }
    if is_word(&elem, Word::P) && spot.among_blocks() {
        split.add_para(alloc, elem, spot.among_blocks())?;
        return Ok(());
    }
    if is_thick(&elem) {
        split.add_thick(alloc, Node::Elem(elem), spot.among_blocks())?;
        return Ok(());
    }
    split.add_thin(alloc, Node::Elem(elem), spot.among_blocks())?;
    Ok(())
}

#[cycle(split)]
fn split_container<'a>(
    alloc: Global,
    elem: Elem<'a>,
    spot: Spot,
) -> Result<Container<'a>, AllocError>
    ensures { IfOk result (λ container. (parent : Tag) → (above : List Tag) → spot ≡ spot_of (parent ∷ above) → count (kids_of elem.entry) < 2 ^ 32
        → container_of container ≡ container_view (tag_of elem.entry)
        (fresh_tally (owned (tag_of elem.entry ∷ parent ∷ above) (slots_in opens (tag_of elem.entry ∷ parent ∷ above) (kids_of elem.entry))))
        (fresh_states (tag_of elem.entry ∷ parent ∷ above) (slots_in opens (tag_of elem.entry ∷ parent ∷ above) (kids_of elem.entry)))) }
{
    let mut elem = elem;
    let inside = spot.inside(&elem);
    let kids = elem.take_kids(alloc);
    let slots = split_kids(alloc, kids, inside)?;
    let owned = count_owned(&slots, inside);
    Ok(Container {
        elem,
        tally: Tally {
            cut: false,
            owned,
            living: owned,
            gone: false,
        },
        slots,
    })
}
