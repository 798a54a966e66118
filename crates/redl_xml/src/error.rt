//! Why a text was not read.

ghost use Rattle.std.specs.Prelude.{◌≡◌};
ghost use Rattle.redl_xml.specs.Errors.{error_of};

use redl_markup::MarkupError;
use thiserror::Error;

/// Why a text was not read.
#[derive(Clone, Copy, Debug, PartialEq, Eq, Error)]
pub enum XmlError {
    /// The bytes are the text of no tree.
    #[error("the bytes are not the text of a tree")]
    Unreadable,
    /// An element of the tree is deeper than 512, with the root at depth 1.
    #[error("an element is too deep")]
    Depth,
    /// The tree is no deeper than that, and has more than 2,097,152 nodes.
    #[error("there are too many nodes")]
    Nodes,
    /// An allocation failed; nothing is known of the bytes.
    #[error("out of memory")]
    NoMemory,
}

impl From<MarkupError> for XmlError {
    ghost from_gives = { λ error e. e ≡ error_of error };

    fn from(error: MarkupError) -> XmlError {
        match error {
            MarkupError::Unreadable => XmlError::Unreadable,
            MarkupError::NoMemory => XmlError::NoMemory,
        }
    }
}
