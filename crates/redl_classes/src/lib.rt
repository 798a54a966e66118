//! Numbers that belong together: pairs of numbers go in, and for each number the least one of those that it belongs to comes out.
//!
//! Read `least_numbers` first, and `specs/Together.antt`: pairs, and what follows from them, are the smallest equivalence that holds them.
//! Where pairs come from, and what numbers mean, is left to the crates above.
//! Rows by hand are in `proofs/Rows.antt`.
#![tactic(auto)]

mod least;
mod pair;
mod parents;

pub use least::least_numbers;
pub use pair::Pair;
