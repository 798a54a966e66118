//! Which comments are on which revision: a numbered package goes in, and its comments and those on each revision come out.
//!
//! Read `package_comments` first, and `specs/Ranges.antt` and `specs/On.antt`. It goes over each story once where there are comments, sorts
//! the comments and the members, and keeps at most 20 comments of each revision. What comments say is left to `redl_comments`, what
//! members hold to `redl_spans`, and how a listing shows comments to the crates above.
//! Rows by hand are in `proofs/Rows.antt`. Its tests are whole calls, in the rows of `redl_rows`.
#![tactic(auto)]

mod ends;
mod found;
mod front;
mod on;
mod own;
mod package;
mod range;
mod remarks;

pub use package::{Commented, package_comments};
pub use remarks::Remarks;
