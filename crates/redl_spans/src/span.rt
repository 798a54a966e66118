//! What a member of a revision holds.

/// Units of a package that a member of a revision holds: there is at least one.
#[derive(Clone, Copy, Debug)]
pub struct Span {
    /// The number of the revision.
    pub revision: u32,
    /// How many units come before them.
    pub from: usize,
    /// How many units come before the first one after them.
    pub to: usize,
}
