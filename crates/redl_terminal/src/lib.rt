//! What a terminal is given of a text: bytes go in, and they come out with a question mark for each character that a terminal may obey or
//! that hides what is there.
//!
//! Read `push_masked`; `put_masked` does the same before a sink. `specs/Masks.antt` says which characters these are.
//! Names and values in a line are an `Extent::Field`, and a text of lines is `Extent::Lines`. Which texts of the program are for
//! a terminal is left to the crates above.
//! Rows by hand are in `proofs/Rows.antt`. Its tests are whole calls, in the rows of `redl_rows`.
#![tactic(auto)]

mod extent;
mod hidden;
mod masked;
mod steps;

pub use extent::Extent;
pub use masked::{push_masked, put_masked};
