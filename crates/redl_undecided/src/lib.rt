//! How many marks of changes a document holds that no revision holds: nodes go in, a number comes out.
//!
//! Read `count_undecided`. Such marks are elements of WordprocessingML with the name of a tracked change, at a place or of a kind
//! that Redline doesn't decide, as the `ins` of a paragraph's numbering. So they stay in what is written. Which elements are in a
//! revision is left to `redl_index`, and what else is left in a document to `redl_left`.
//! Its tests are whole calls, in the rows of `redl_rows`.
#![tactic(auto)]

mod count;
mod middles;
mod names;

pub use count::count_undecided;
pub use names::is_mark_name;
