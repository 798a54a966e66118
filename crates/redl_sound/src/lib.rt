//! Laws of what the crates below define, each a function without code: what a date is, which revision a number names, how paragraphs
//! are joined, what a sample is, and what a lock protects.
//!
//! Definitions go in, and statements of them come out. Read `numbers_name_revisions` first.
#![tactic(auto)]

mod locks;
mod numbers;
mod paras;
mod sample;
mod stamp;

pub use locks::{journals_leave_what_is_locked, locked_revisions_are_left};
pub use numbers::numbers_name_revisions;
pub use paras::groups_are_in_one_piece;
pub use sample::{samples_are_packages, samples_have_their_revisions};
pub use stamp::moments_have_their_form;
