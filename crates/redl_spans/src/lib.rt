//! What each member of a revision holds of its story, and where comments are in it: a numbered package goes in, and spans of units and
//! places of comments come out.
//!
//! Read `walk_package` first, and `specs/Walks.antt`. It goes over each story once, and counts units as a reader passes them: bytes of
//! text, tabs, breaks, signs, pictures, and the mark of each paragraph. Which comments are on which revision is left to the crates above.
//! Rows by hand are in `proofs/Rows.antt`. Its tests are whole calls, in the rows of `redl_rows`.
#![tactic(auto)]

mod idle;
mod length;
mod member;
mod members;
mod place;
mod span;
mod start;
mod stories;
mod walk;
mod walked;

pub use place::{Anchor, CommentPlace, Position};
pub use span::Span;
pub use stories::walk_package;
pub use walked::Walk;
