//! Paragraphs that are joined: a chain of paragraphs and of the nodes between them goes in, what they give together comes
//! out.
//!
//! Read `ChainPiece` first, then `group`. Its clauses cite the definition of `specs/Decisions/Groups.antt` of `redl_tree`, and hold of any
//! chain. Which paragraphs are cut, and where a chain begins and ends, is left to the crates above.
//! Its tests are in `redl_pass_tests`.
#![tactic(auto)]

mod grouping;
mod join;
mod piece;

pub use grouping::group;
pub use piece::{ChainPiece, Next};
