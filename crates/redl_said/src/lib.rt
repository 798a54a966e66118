//! The text of nodes: nodes go in, and an `Ear` hears what they say and keeps of it what it needs.
//!
//! Read `tell_nodes`. An ear keeps the beginning of a text (`Phrase`), the whole line of a paragraph (`Line`) or a place in it
//! (`LinePlace`). Which nodes are told, and what is made of their text, is left to the crates above.
//! Its tests are whole calls, in the rows of `redl_rows`.
#![tactic(auto)]

mod ear;
mod idle;
mod line;
mod phrase;
mod said;

pub use ear::Ear;
pub use idle::tell_plain;
pub use line::{Line, LinePlace, before, behind, characters_in, without_characters};
pub use phrase::{Phrase, shortened};
pub use said::{holds_text, is_paragraph, tell_bytes, tell_nodes, tell_start};
