//! The marks of a text: what was done to it, by whom and when.
//!
//! Read `Marks::add`: a mark comes to others in its place, and `specs/Marks.antt` has the order. They lie in the value itself, so
//! that they take no memory. Where marks come from, and how they are written, is left to the crates above.
//! Its tests are whole calls, in the rows of `redl_rows`.
#![tactic(auto)]

mod mark;
mod marks;
mod sign;

pub use mark::{Mark, Stamp};
pub use marks::Marks;
pub use sign::Sign;
