//! A package: its nodes, and the parts that a text of the right shape has.

ghost use Rattle.std.specs.Prelude.{◌≡◌, ◌<◌, ◌^◌, None, length, map, slice_get, IfOk, IfErr, IfSome, IsTrue};
ghost use Rattle.std.specs.Str.{IsUtf8};
ghost use Rattle.redl_reading.specs.Steps.{Gives};
ghost use Rattle.redl_tree.specs.Model.Count.{count};
ghost use Rattle.redl_tree.specs.Model.Text.{text};
ghost use Rattle.redl_tree.specs.Model.View.{nodes_of, tag_of, kids_of};
ghost use Rattle.redl_tree.specs.Decisions.Packages.{is_story_root, stories, left_after, changed_package};
ghost use Rattle.redl_tree.specs.Decisions.Taken.{TakesAll};
ghost use Rattle.redl_opc.specs.Elements.{element_of};
ghost use Rattle.redl_opc.specs.Shape.{refusal, IsCause, parts_of};
ghost use Rattle.redl_opc.specs.Parts.{part_name, story, places_of};
ghost use Rattle.redl_opc.specs.Inside.PartView.{part_view};
ghost use Rattle.redl_opc.specs.Labels.{SetsLabels};
ghost use Rattle.redl_tree.specs.Model.Tree.{HasUtf8Tails, IsTree};

use crate::elements::element_at;
use crate::error::OpcError;
use crate::listing::list_parts;
use crate::part::Part;
use crate::shape::{are_parts, have_document, package_of, story_of};
use redl_tree::{Elem, Node, StoryChange, change_stories};
use std::alloc::Global;
use std::convert::Infallible;
use std::marker::Model;

/// A package, which contracts see as its nodes. Its parts are numbered from 0, in order.
#[derive(Drop)]
pub struct Package<'a> {
    nodes: Vec<Node<'a>>,
    parts: Vec<Part>,
}

impl<'a> Model for Package<'a> {
    ghost use Rattle.std.specs.Prelude.{map};
    ghost use Rattle.std.specs.Coded.{codes};
    ghost use Rattle.redl_tree.specs.Model.Nodes.{Nodes};
    ghost use Rattle.redl_opc.specs.Code.{nodes_code};

    ghost Value = { Nodes };

    ghost coded = { nodes_code (Prim.hlevel codes) };

    ghost use Rattle.redl_tree.specs.Model.View.{nodes_of};
    ghost use Rattle.redl_opc.specs.Parts.{IsKept};
    ghost use Rattle.redl_opc.specs.Inside.PartView.{part_view};

    ghost view = { λ pkg. nodes_of pkg.nodes.items };

    ghost invariant = { λ pkg. IsKept (nodes_of pkg.nodes.items) (map part_view pkg.parts.items) };
}

fn parts_in(alloc: Global, nodes: &[Node]) -> Result<Vec<Part>, OpcError>
    requires { IsTree (nodes_of nodes.now) }
    ensures shape { IfOk result (λ parts. refusal (nodes_of nodes.now) ≡ None) }
    ensures parts { IfOk result (λ parts. map part_view parts.items ≡ places_of (nodes_of nodes.now)) }
    ensures cause { IfErr result (λ error. IsCause error (nodes_of nodes.now)) }
{
    let Some(root) = package_of(nodes) else {
        return Err(OpcError::NotPackage);
    };
    if !are_parts(root.kids()) {
        return Err(OpcError::PartShape);
    }
    if !have_document(root.kids()) {
        return Err(OpcError::NoDocument);
    }
    Ok(list_parts(alloc, root.kids())?)
}

fn part_at(parts: &[Part], number: u32) -> Option<&Part>
    ensures { Gives (λ part. part_view part.now) result (slice_get (map part_view parts.now) number) }
{
    parts.get(number as usize)
}

impl<'a> Package<'a> {
    /// The package with these nodes.
    ///
    /// The nodes are those of a text that was read: the tail of each element is UTF-8, and there are fewer than 2^32 nodes.
    /// `NotPackage` exactly if the root is not `package` in the package's namespace. Otherwise `PartShape` exactly if a child
    /// element of the root is not a part with a name, a content type, and one `binaryData` or one `xmlData` with one element.
    /// Otherwise `NoDocument` exactly if no part has the root `document`. `NoMemory` means out of memory, and comes only
    /// where none of these holds. A refusal drops the nodes.
    pub fn make(alloc: Global, nodes: Vec<Node<'a>>) -> Result<Package<'a>, OpcError>
        requires { IsTree (nodes_of nodes.items) }
        ensures nodes { IfOk result (λ pkg. pkg ≡ nodes_of nodes.entry.items) }
        ensures shape { IfOk result (λ pkg. refusal pkg ≡ None) }
        ensures cause { IfErr result (λ error. IsCause error (nodes_of nodes.entry.items)) }
    {
        let parts = parts_in(alloc, &nodes)?;
        Ok(Package { nodes, parts })
    }

    /// All nodes, with the text before and after the root.
    pub fn nodes(&self) -> &[Node<'a>]
        ensures nodes { nodes_of result.now ≡ self.now }
        ensures shape { refusal self.now ≡ None }
        ensures tails { HasUtf8Tails self.now }
        ensures few { count self.now < 2 ^ 32 }
    {
        &self.nodes
    }

    /// The nodes of the package, with their labels.
    pub fn into_nodes(self) -> Vec<Node<'a>>
        ensures nodes { nodes_of result.items ≡ self.entry }
        ensures shape { refusal (nodes_of result.items) ≡ None }
        ensures tails { HasUtf8Tails (nodes_of result.items) }
        ensures few { count (nodes_of result.items) < 2 ^ 32 }
    {
        self.nodes
    }

    /// The number of parts.
    pub fn parts(&self) -> u32
        ensures value { result ≡ length (parts_of self.now) }
        ensures shape { refusal self.now ≡ None }
        ensures few { count self.now < 2 ^ 32 }
    {
        self.parts.len() as u32
    }

    /// The decoded name of a part. `None` exactly if no part has this number.
    pub fn part_name(&self, part: u32) -> Option<&[u8]>
        ensures value { Gives (λ name. name.now) result (part_name self.now part) }
        ensures utf8 { IfSome result (λ name. IsUtf8 name.now) }
    {
        let part = part_at(&self.parts, part)?;
        Some(part.name())
    }

    /// The root of a story. `None` exactly if no part has this number, or the part is not a story.
    ///
    /// To go over all stories, ask for those of the parts from 0 to `parts() - 1`.
    pub fn story(&self, part: u32) -> Option<&Elem<'a>>
        ensures value { Gives (λ root. element_of root.now) result (story self.now part) }
        ensures root { IfSome result (λ root. IsTrue (is_story_root (tag_of root.now))) }
        ensures tails { IfSome result (λ root. HasUtf8Tails (kids_of root.now)) }
    {
        let part = part_at(&self.parts, part)?;
        let root = package_of(&self.nodes)?;
        let part = element_at(root.kids(), part.place)?;
        story_of(part)
    }

    /// Changes the labels in the stories, in their order, by a change that sets labels alone. All else is unchanged.
    ///
    /// It takes no memory of its own, and cannot fail.
    pub fn change_labels<S, C: StoryChange<S, Error = Infallible>>(
        &mut self,
        change: &C,
        state: &mut S,
    )
        requires labels { SetsLabels C.rule }
        requires taken { TakesAll C.rule C.Takes (C.given change.now state.old) (stories self.old) }
        ensures nodes { self.new ≡ changed_package C.rule (C.given change.now state.old) self.old }
        ensures left { C.given change.now state.new ≡ left_after C.rule (C.given change.now state.old) (stories self.old) }
        ensures text { text self.new ≡ text self.old }
    {
        let alloc = *self.nodes.allocator();
        match change_stories(alloc, &mut self.nodes, change, state) {
            Ok(()) => {}
        }
    }
}
