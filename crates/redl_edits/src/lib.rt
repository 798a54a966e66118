//! Edits: a numbered package and its revisions go in, and for each revision the number of the edit that it belongs to comes out.
//!
//! Read `specs/Edits.antt` first: two revisions belong together in four ways, each of which has a file. An edit is a class of the smallest
//! equivalence that holds these (`redl_classes`), and its number is the least one in it. What is shown of edits is left to the crates above.
//! Rows by hand are in `proofs/Rows.antt`.
#![tactic(auto)]

mod alike;
mod beside;
mod dark;
mod edge;
mod edits;
mod enclosed;
mod formats;
mod formatted;
mod kept;
mod loose;
mod passed;
mod said;
mod same;
mod seen;
mod seen_by;
mod tabled;
mod tables;

pub use edits::edits_of;
