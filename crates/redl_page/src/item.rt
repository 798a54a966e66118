//! What is said of a revision in its item.

use redl_io::Text;

/// What is said of a revision in its item. A text without bytes says nothing.
#[derive(Drop)]
pub struct ItemWords {
    /// The clause that it is in.
    pub clause: Text,
    /// Where it is.
    pub place: Text,
    /// What it changes.
    pub changed: Text,
    /// The edit that it belongs to.
    pub edit: u32,
    /// The ids of the comments on it, with a space between them.
    pub remarks: Text,
}
