//! Reads the pieces of an XML text: its tags, and the stretches without a tag between them.
//! `is_text` tests the characters of the whole input, and `next_piece` then reads one piece after the other.
//! `next_piece` reads a piece exactly where the grammar (`redl_grammar`) has one at the start.
//! Namespaces, which tags match, and that there is one root are left to the crate above.
//! Its tests are in `redl_text_tests`.
#![tactic(auto)]

mod attribute;
mod bare;
mod character;
mod declaration;
mod decode;
mod distinct;
mod error;
mod item;
mod laws;
mod name;
mod near;
mod piece;
mod read;
mod reference;
mod space;
mod stretch;
mod tag;

pub use attribute::{Attribute, next_attribute};
pub use bare::{BarePiece, BareTag, known_piece};
pub use character::is_text;
pub use decode::{decode_value, is_literal};
pub use error::MarkupError;
pub use laws::attributes_are_listed;
pub use name::Name;
pub use piece::{Piece, StartTag};
pub use read::next_piece;
pub use reference::read_reference;
