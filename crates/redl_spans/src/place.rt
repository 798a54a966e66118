//! Places of comments.

use redl_io::Text;

/// What a place is to a comment.
#[derive(Clone, Copy, Debug, PartialEq, Eq)]
pub enum Anchor {
    /// Its range begins.
    Start,
    /// Its range ends.
    End,
    /// A reference to it.
    Reference,
}

/// A place between the units of a package.
#[derive(Clone, Copy, Debug)]
pub struct Position {
    /// How many units come before it.
    pub count: usize,
    /// Whether the last of these is in the same paragraph, and not its mark.
    pub near: bool,
}

/// A place of a comment.
#[derive(Drop)]
pub struct CommentPlace {
    /// What it is to the comment.
    pub anchor: Anchor,
    /// The id of the comment, as it is written.
    pub id: Text,
    /// How many units come before the story that it is in. No two stories have one number.
    pub story: usize,
    /// Where it is.
    pub at: Position,
}
