//! Moves: which markers of a story belong together, and which move a position lies in.
//!
//! Read `Moves` first. It takes the markers of one story in the order of their positions, pairs them, and then answers, without
//! memory, which move a marker is of and which move is open at a position (ECMA-376 Part 1, 17.13.5.23 to 17.13.5.28; that
//! ranges are paired by their names is our own rule).
//! `pair` alone lists the paired moves. Finding the markers of a story is left to the crates above.
//! Its tests are in `redl_tree_tests`.
#![tactic(auto)]

mod before;
mod marker;
mod marker_index;
mod move_index;
mod moves;
mod opens;
mod owners;
mod pairing;
mod range_index;
mod start;

pub use marker::{Edge, Marker, Move};
pub use moves::Moves;
pub use opens::Side;
pub use pairing::pair;
pub use start::Start;
