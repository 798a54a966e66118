//! The rules of structure that a package must keep, for its revisions to be decided: a package goes in, and the least
//! rule that it breaks comes out. Read `check` first, then the rules in `rules.rt` beside `Sound` of `redl_tree`.
//! A package that keeps them all is sound: whatever is decided, what the decision leaves is a document.
//! `Keeper` tells the same of a story in a visit that others may share. Which elements are revisions is told by `Around` of
//! `redl_tree`; what a decision does is left to the crates above.
//! Its tests are in `redl_tree_tests`.
#![tactic(auto)]

mod attributes;
mod ends;
mod keeper;
mod kept;
mod kids;
mod laws;
mod round;
mod rules;
mod soundness;

pub use keeper::Keeper;
pub use kept::Kept;
pub use laws::numbering_keeps_rules;
pub use round::Round;
pub use soundness::{RuleError, check};
