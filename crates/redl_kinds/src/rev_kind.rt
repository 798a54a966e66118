//! Kinds of revisions: what is changed, and whether it is inserted, deleted or moved.

use redl_tree::{Prop, Trace};

/// What a revision is, and whether that is inserted, deleted or moved.
#[derive(Clone, Copy, Debug, PartialEq, Eq)]
pub enum RevKind {
    /// Run content.
    Content(Trace),
    /// A move with its ranges.
    Move,
    /// The mark of a paragraph.
    Mark(Trace),
    /// A row.
    Row(Trace),
    /// A cell.
    Cell(Trace),
    /// A change of properties.
    Change(Prop),
}
