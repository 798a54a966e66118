//! Neighbouring idle elements, kept as the text that they are.

ghost use Rattle.std.specs.Prelude.{◌≡◌, ◌<◌, ◌^◌, true, length};
ghost use Rattle.redl_tree.specs.Model.Text.{text};
ghost use Rattle.redl_tree.specs.Model.Count.{count};
ghost use Rattle.redl_tree.specs.Model.Elements.{elements};
ghost use Rattle.redl_tree.specs.Model.IdleTexts.{is_idle_text, idle_nodes};

use std::marker::Model;

/// Idle elements of one list, with the bytes between them, as they stand in the input.
#[derive(Drop)]
pub struct Plain<'a> {
    text: &'a [u8],
    nodes: u32,
    elems: u32,
}

impl<'a> Model for Plain<'a> {
    ghost use Rattle.std.specs.Prelude.{◌≡◌, ◌<◌, ◌^◌, ℕ, true, List, length};
    ghost use Rattle.redl_tree.specs.Model.Count.{count};
    ghost use Rattle.redl_tree.specs.Model.Elements.{elements};
    ghost use Rattle.redl_tree.specs.Model.IdleTexts.{is_idle_text, idle_nodes};

    ghost Value = { List ℕ };

    ghost view = { λ plain. plain.text.now };

    ghost invariant = { λ plain. (is_idle_text plain.text.now ≡ true) × (count (idle_nodes plain.text.now) ≡ plain.nodes) × (elements (idle_nodes plain.text.now) ≡ plain.elems) × (length plain.text.now < 2 ^ 32) };
}

impl<'a> Plain<'a> {
    /// The elements that this text is, of which there is one at least, with the numbers of their nodes and elements at every depth.
    pub fn new(text: &'a [u8], nodes: u32, elems: u32) -> Plain<'a>
        requires idle { is_idle_text text.now ≡ true }
        requires nodes { count (idle_nodes text.now) ≡ nodes }
        requires elems { elements (idle_nodes text.now) ≡ elems }
        requires short { length text.now < 2 ^ 32 }
        ensures { result ≡ text.entry.now }
    {
        Plain { text, nodes, elems }
    }

    /// Their text.
    #[tactic(auto, using(crate::proofs::Idle::Items::text_of_idle))]
    pub fn text(&self) -> &'a [u8]
        ensures text { result.now ≡ self.now }
        ensures nodes { text (idle_nodes self.now) ≡ result.now }
        ensures idle { is_idle_text result.now ≡ true }
        ensures short { length result.now < 2 ^ 32 }
    {
        self.text
    }

    /// The number of nodes, at every depth.
    pub fn nodes(&self) -> u32
        ensures { result ≡ count (idle_nodes self.now) }
    {
        self.nodes
    }

    /// The number of elements, at every depth.
    pub fn elems(&self) -> u32
        ensures { result ≡ elements (idle_nodes self.now) }
    {
        self.elems
    }

    /// The same elements once more.
    pub fn copy(&self) -> Plain<'a>
        ensures { result ≡ self.now }
    {
        Plain {
            text: self.text,
            nodes: self.nodes,
            elems: self.elems,
        }
    }
}
