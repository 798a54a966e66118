//! What the text between tags shows: the bytes of a node go in, and the characters that a reader sees go out.
//!
//! Read `put_shown`. Each reference is its character, CDATA shows what is in it, and comments and instructions show nothing.
//! `next_shown` gives the same piece by piece. Which texts of a document are shown, and where, is left to the crates above.
//! Rows by hand are in `proofs/Rows.antt`. Its tests are whole calls, in the rows of `redl_rows`.
#![tactic(auto)]

mod parts;
mod pieces;
mod shown;

pub use parts::{Here, start};
pub use pieces::{ShownPiece, Step, next_shown};
pub use shown::put_shown;
