//! Details with edits and comments: what a listing shows of a revision, of the edit that it belongs to, and of the comments on it.
//!
//! Read `remarked_details` and `specs/Remarked.antt`, and `specs/Ids.antt` for the ids of the comments alone. Which edit a revision belongs
//! to is said in `redl_edits`, whether it is hidden in `redl_hidden_members`, which comments are on it in `redl_commented`, and how a
//! listing shows them in the crates above.
//! Its tests are whole calls, in the rows of `redl_rows`.
#![tactic(auto)]

mod details;
mod edited;
mod ids;
mod remarks;

pub use details::remarked_details;
pub use ids::remark_ids;
