//! How far a text goes on a terminal.

/// How far a text goes on a terminal.
#[derive(Clone, Copy, Debug, PartialEq, Eq)]
pub enum Extent {
    /// It is a part of a line.
    Field,
    /// It is lines, with tabs in them.
    Lines,
}
