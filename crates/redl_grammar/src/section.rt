//! Where a piece is in a text.

/// The position of a piece in a text, which decides what a stretch without a tag may be.
#[derive(Clone, Copy, Debug, PartialEq, Eq)]
pub enum Section {
    /// From the start of the text to its root: a byte order mark, an XML declaration, white space, comments and instructions.
    BeforeRoot,
    /// In an element: character data, references, comments, instructions and CDATA.
    InElement,
    /// After the root: white space, comments and instructions.
    AfterRoot,
}
