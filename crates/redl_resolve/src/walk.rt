//! What goes along a walk over the nodes of a story.

use crate::steps::Steps;
use redl_tree::Say;
use std::alloc::Global;
use std::sync::ledger::Ledger;

/// A walk over the nodes of a story. Its functions are in `story`.
#[derive(Drop)]
pub(crate) struct Walk<'s, 'c, L: Ledger> {
    /// Where memory comes from.
    pub alloc: Global,
    /// `says[v - 1]` belongs to revision v.
    pub says: &'s [Say],
    /// Counts the nodes that are looked at.
    pub steps: &'c mut Steps<L>,
}
