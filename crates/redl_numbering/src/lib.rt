//! The numbers of paragraphs: what a paragraph says of its style and its list goes in, and the text of its number comes out.
//!
//! Read `Counting::count`, and `specs/Counts.antt`. `Lists` finds lists, nums and styles by their names. Which paragraphs are counted, and
//! in which order, is left to the crates above.
#![tactic(auto)]

mod counting;
mod firsts;
mod lists;
mod paragraph;
mod text;
mod used;

pub use counting::Counting;
pub use lists::{Found, Lists};
pub use used::Used;
