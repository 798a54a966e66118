//! What there is to tell of a document that a call takes all the same.

/// What there is to tell of a document that a call takes all the same.
#[derive(Drop)]
pub enum Note {
    /// So many marks of changes are left that are never decided, one at least.
    Undecided(u64),
    /// The revision with this number is locked, and nothing of it is left, since what was around it went.
    Gone(u32),
    /// What is written will not be read again as a package, for this reason.
    NotAgain(Obstacle),
}

/// Why the text of a document will not be read again as a package.
#[derive(Clone, Copy, Debug, PartialEq, Eq)]
pub enum Obstacle {
    /// An element is deeper than a package may have it.
    Depth,
    /// It is longer than a package may be.
    Bytes,
    /// Texts that meet in it form `]]>`.
    Meeting,
}
