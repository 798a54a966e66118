//! The order of stories: a package goes in, and its stories and notes come out in the order in which a reader meets them, whatever
//! order its file has them in.
//!
//! Read `ordered`, and `specs/Order.antt`: the document, the headers, the footers, and the notes that the document names, each kind in
//! the order of its references. Headers and footers that no reference names come behind the others, such notes aren't among them, and
//! no comment is. What is shown of a story is left to the crates above.
//! Rows by hand are in `proofs/Rows.antt`. Its tests are whole calls, in the rows of `redl_rows`.
#![tactic(auto)]

mod find;
mod named;
mod notes;
mod once;
mod order;
mod places;
mod reference;
mod stories;
mod values;

pub use order::{document_references, ordered};
pub use reference::{Named, Reference};
pub use values::value_in;
