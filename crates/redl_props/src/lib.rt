//! Former properties: the present kids of a property element and those of its former properties go in, the kids that it has
//! once the change is rejected come out.
//!
//! Read `restore` first. Its clause cites the table of `specs/Decisions/Restored.antt` of `redl_tree`.
//! Which change is rejected, and where its former kids are, is left to the crates above.
//! Its tests are in `redl_pass_tests`.
#![tactic(auto)]

mod properties;
mod uncovered;

pub use properties::restore;
pub use uncovered::without_marks;
