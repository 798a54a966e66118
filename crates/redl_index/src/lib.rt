//! The revisions of a package: which elements of its stories are in one, their numbers, who made them and when.
//!
//! Read `Index::build` first. It goes over a package as it was read, pairs the moves of each story, gives each element that is
//! in a revision its kind and number, and answers the list of the revisions. `number` does the same and only counts them.
//! `Surveyed` is a package between the look at its stories, which tells the rule of structure that it breaks, and its numbers.
//! `find_markers` lists the markers of moves in one story, which `redl_moves` pairs, and where its paragraphs end.
//! A number is what a reviewer's decision names, so the crates above speak of revisions by number alone.
//! What a decision does is left to the crates above.
//! Its tests are in `redl_tree_tests`.
#![tactic(auto)]

mod find;
mod found;
mod index;
mod label;
mod laws;
mod markers;
mod numbers;
mod revision;
mod story;
mod story_facts;
mod survey;
mod walk;

pub use index::Index;
pub use label::number;
pub use laws::{each_revision_has_a_part, numbering_keeps_revisions, revisions_are_numbered};
pub use markers::{StoryMarkers, find_markers};
pub use revision::Revision;
pub use survey::{Counted, Numbered, Surveyed};
