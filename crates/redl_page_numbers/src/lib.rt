//! The numbers of paragraphs in a page: a package goes in, and comes out as hidden lists, one of each story's paragraphs that have a
//! number, and one of the levels of their nums.
//!
//! Read `Numbers::of` and `put_numbers`, and `specs/Walks.antt` and `specs/Pieces.antt`. Paragraphs are counted as clauses count them,
//! inserted and deleted ones too; from the levels a script counts those that are left in other views. How numbers are shown is left to
//! the page's script.
//! Rows by hand are in `proofs/Rows.antt`. Its tests are whole calls, in the rows of `redl_rows`.
#![tactic(auto)]

mod levels;
mod numbers;
mod put_levels;
mod put_rows;
mod row;
mod stories;
mod walk;
mod walked;

pub use numbers::{Numbers, put_numbers};
