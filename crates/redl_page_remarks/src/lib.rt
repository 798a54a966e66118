//! The comments of a page: the comments of a package and their threads go in, and come out as a list in HTML.
//!
//! Read `put_remarks`, and `specs/Remarks.antt`. Each comment is in the list, in the order of the comments part. What comments say is
//! read by `redl_comments`; where they stand in the text is shown by `redl_page_stories`, and which changes they are on by `redl_page`.
//! Its tests are whole calls, in the rows of `redl_rows`.
#![tactic(auto)]

mod remarks;

pub use remarks::put_remarks;
