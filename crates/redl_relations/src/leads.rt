//! Where all relationships of a part lead, by their ids: a table, for whoever asks for many of them.

ghost use Rattle.std.specs.Prelude.{◌≡◌, ℕ, List, Some, None, bytes_eq, IfOk, OnOk, if◌then◌else◌};
ghost use Rattle.redl_reading.specs.Steps.{or_else};
ghost use Rattle.redl_tree.specs.Model.View.{nodes_of, item_of};
ghost use Rattle.redl_opc.specs.Elements.{element_of};
ghost use Rattle.redl_relations.specs.Relations.{part_by_id, part_by, has_id};
ghost use Rattle.redl_relations.specs.Inside.Tables.{lead_of, lead_in, lead_by, item_lead};
ghost use Rattle.redl_relations.specs.Leads.{lead_at, lead};

use crate::relations::{name_at, relations_of};
use crate::sought::is_lead;
use crate::table::Names;
use crate::values::value_in;
use redl_opc::Package;
use redl_tree::{Elem, Node};
use std::alloc::{AllocError, Global};
use std::collections::BTreeMap;

/// Where the relationships of a part lead. The first of those with one id counts.
#[derive(Drop)]
pub struct Leads<'n> {
    pub(crate) places: BTreeMap<&'n [u8], Option<u32>>,
}

// The part from which they lead, by its name, and all parts by theirs.
#[derive(Clone, Copy)]
pub(crate) struct Whence<'s, 'n> {
    pub(crate) alloc: Global,
    pub(crate) source: &'s [u8],
    pub(crate) names: &'s Names<'n>,
}

impl Whence<'_, '_> {
    // Where a relationship leads. `Err` means out of memory.
    fn lead_of(&self, relation: &Elem) -> Result<Option<u32>, AllocError>
        ensures { IfOk result (λ lead. lead ≡ lead_of self.now (element_of relation.now)) }
    {
        let name = name_at(self.alloc, self.source, relation)?;
        Ok(self.names.part(&name))
    }
}

impl<'n> Leads<'n> {
    /// Those of a part. `Err` means out of memory.
    ///
    /// It takes memory for the names of all parts and for these ids.
    pub fn of(alloc: Global, pkg: &'n Package<'_>, part: u32) -> Result<Leads<'n>, AllocError>
        ensures { IfOk result (λ leads. (id : List ℕ) → lead leads id ≡ part_by_id pkg.now part id) }
    {
        match pkg.part_name(part) {
            Some(source) => Leads::from(alloc, pkg, source),
            None => Ok(Leads::none(alloc)),
        }
    }

    /// None.
    pub fn none(alloc: Global) -> Leads<'n>
        ensures at { (id : List ℕ) → lead_at result id ≡ None }
        ensures lead { (id : List ℕ) → lead result id ≡ None }
    {
        Leads {
            places: BTreeMap::new(alloc),
        }
    }

    // Those of the part with the name `source`. `Err` means out of memory.
    fn from(alloc: Global, pkg: &'n Package<'_>, source: &[u8]) -> Result<Leads<'n>, AllocError>
        ensures { IfOk result (λ leads. (id : List ℕ) → lead leads id ≡ part_by (has_id id) pkg.now (Some source.now)) }
    {
        let mut leads = Leads::none(alloc);
        let Some(root) = relations_of(alloc, pkg, source)? else {
            return Ok(leads);
        };
        let names = Names::of(alloc, pkg)?;
        let whence = Whence {
            alloc,
            source,
            names: &names,
        };
        leads.add_all(root.kids(), whence)?;
        Ok(leads)
    }

    // Adds those among nodes. `Err` means out of memory.
    fn add_all(&mut self, nodes: &'n [Node<'_>], whence: Whence<'_, '_>) -> Result<(), AllocError>
        ensures { OnOk result ((id : List ℕ) → lead_at self.new id ≡ or_else (lead_at self.old id) (lead_in whence.entry id (nodes_of nodes.now))) }
    {
        for node in nodes {
            self.add_node(node, whence)?;
        }
        Ok(())
    }

    fn add_node(&mut self, node: &'n Node<'_>, whence: Whence<'_, '_>) -> Result<(), AllocError>
        ensures { OnOk result ((id : List ℕ) → lead_at self.new id ≡ or_else (lead_at self.old id) (item_lead whence.entry id (item_of node.now))) }
    {
        match node {
            Node::Elem(elem) => self.add_elem(elem, whence),
            Node::Bytes(_) | Node::Plain(_) => Ok(()),
        }
    }

    fn add_elem(&mut self, elem: &'n Elem<'_>, whence: Whence<'_, '_>) -> Result<(), AllocError>
        ensures { OnOk result ((id : List ℕ) → lead_at self.new id ≡ or_else (lead_at self.old id) (lead_by whence.entry id (element_of elem.now))) }
    {
        if is_lead(elem) {
            return self.add(value_in(elem.tail(), b"Id"), whence.lead_of(elem)?);
        }
        Ok(())
    }

    // Adds a lead, unless one before it has the same id. `Err` means out of memory.
    fn add(&mut self, id: &'n [u8], lead: Option<u32>) -> Result<(), AllocError>
        ensures { OnOk result ((other : List ℕ) → lead_at self.new other ≡ or_else (lead_at self.old other) (if bytes_eq id.now other then Some lead else None)) }
    {
        if self.places.get(id).is_some() {
            return Ok(());
        }
        self.places.insert(id, lead)?;
        Ok(())
    }

    /// The part to which the relationship with this id leads.
    pub fn part(&self, id: &[u8]) -> Option<u32>
        ensures { result ≡ lead self.now id.now }
    {
        match self.places.get(id) {
            Some(lead) => *lead,
            None => None,
        }
    }
}
