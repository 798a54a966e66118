//! A story, as an editor keeps it.

use redl_leaves::{Slot, Spot};

/// A story, without the root.
#[derive(Drop)]
pub(crate) struct Story<'a> {
    /// Where the kids of the root stand.
    pub spot: Spot,
    /// What they are.
    pub slots: Vec<Slot<'a>>,
}
