//! The clause of each revision: the number of the paragraph that its first member is in, or the last number before it.
//!
//! Read `numbered_details`, and `specs/Walks.antt`. It walks the stories once and counts paragraphs as a reader sees them while changes are
//! shown, inserted and deleted ones too. How a listing shows a clause is left to the crates above.
//! Its tests are whole calls, in the rows of `redl_rows`.
#![tactic(auto)]

mod details;
mod paragraph;
mod says;
mod signs;
mod stories;
mod tables;
mod told;
mod walk;
mod walked;

pub use details::{clause_at, numbered_details};
pub use paragraph::count_paragraph;
pub use stories::clauses_of;
pub use tables::package_tables;
