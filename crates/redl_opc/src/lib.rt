//! The shape of a package: nodes go in, and a package comes out whose parts and stories can be asked for by number.
//! Read `Package::make` first: it takes the nodes exactly if they have the shape, and otherwise gives the first cause.
//! A package always has the shape, each of its parts has a name in UTF-8, and its text is that of its nodes.
//! The crates above decide which elements of a story are revisions, and note it with `change_labels`.
//! Its tests are in `redl_tree_tests`.
#![tactic(auto)]

mod elements;
mod error;
mod laws;
mod listing;
mod package;
mod part;
mod shape;

pub use error::OpcError;
pub use laws::{each_story_has_a_part, numbering_keeps_parts, stories_are_of_parts};
pub use package::Package;
pub use shape::{package_of, story_of};
