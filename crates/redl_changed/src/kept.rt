//! The leaves of a list of properties that are compared.

ghost use Rattle.std.specs.Prelude.{◌≡◌, ◌+◌, ◌++◌, IfOk, OnOk, Some, length, nat_le};
ghost use Rattle.redl_properties.specs.Changes.{changes_between};
ghost use Rattle.redl_changed.specs.Changed.{differences};
ghost use Rattle.redl_changed.specs.Kept.{cut, nothing_kept, with_leaf};

use redl_properties::{Changed, Leaf, changes_between};
use std::alloc::{AllocError, Global};
use std::marker::Model;

// How many leaves and attributes of a list are compared.
const ROOM: usize = 500;

/// The leaves that are kept, how much room they take, and whether a leaf wasn't kept.
#[derive(Drop)]
pub(crate) struct Kept {
    leaves: Vec<Leaf>,
    size: usize,
    is_cut: bool,
}

impl Model for Kept {
    ghost use Rattle.redl_changed.specs.Kept.{KeptLeaves};

    ghost Value = { KeptLeaves };

    ghost view = { λ kept. record { leaves = kept.leaves.items; size = kept.size; is_cut = kept.is_cut } };
}

impl Kept {
    /// None. It takes no memory.
    pub(crate) fn new(alloc: Global) -> Kept
        ensures { result ≡ nothing_kept }
    {
        Kept {
            leaves: Vec::new(alloc),
            size: 0,
            is_cut: false,
        }
    }

    /// Keeps a leaf, where it has room. `Err` means out of memory.
    pub(crate) fn add(&mut self, leaf: Leaf) -> Result<(), AllocError>
        ensures { OnOk result (self.new ≡ with_leaf self.old (Some leaf)) }
    {
        let count = leaf.attributes.list().len();
        if !has_room(self.size, count) {
            self.is_cut = true;
            return Ok(());
        }
        self.size += 1 + count;
        self.leaves.push(leaf)?;
        Ok(())
    }

    /// A leaf isn't kept.
    pub(crate) fn cut(&mut self)
        ensures { self.new ≡ cut self.old }
    {
        self.is_cut = true;
    }

    /// Whether a leaf wasn't kept.
    pub(crate) fn is_cut(&self) -> bool
        ensures { result ≡ self.now.is_cut }
    {
        self.is_cut
    }

    /// The properties that differ, where these are the leaves of the present list. `Err` means out of memory.
    pub(crate) fn differences(self, alloc: Global, former: Kept) -> Result<Vec<Changed>, AllocError>
        ensures { IfOk result (λ changed. changed.items ≡ differences self former) }
    {
        let Kept { leaves, .. } = self;
        let Kept { leaves: later, .. } = former;
        joined(alloc, leaves, later)
    }
}

fn joined(alloc: Global, present: Vec<Leaf>, former: Vec<Leaf>) -> Result<Vec<Changed>, AllocError>
    ensures { IfOk result (λ changed. changed.items ≡ changes_between (present.items ++ former.items) (length present.items)) }
{
    let mut leaves = present;
    let count = leaves.len();
    let mut later = former;
    leaves.append(&mut later)?;
    changes_between(alloc, &leaves, count)
}

// Whether there is room for a leaf with so many attributes.
fn has_room(size: usize, attributes: usize) -> bool
    ensures { result ≡ nat_le (size + (1 + attributes)) 500 }
{
    attributes < ROOM.saturating_sub(size)
}
