//! The leaves and containers of a story, as an editor keeps them: a story goes in, and what it is under a say for each revision is
//! lent, written and changed leaf by leaf.
//! Read `take_story` first, which splits a story, then `set_story`, which sets says in it. What is kept is always the split of the
//! original, with the pass of each leaf under the says (`specs/View.antt`). Which leaves a revision touches is left to the crate above.
//! Its tests are those of the editor, in `redl_calls_tests`.
#![tactic(auto)]

mod cutting;
mod finding;
mod lending;
mod marks;
mod mending;
mod open;
mod putting;
mod setting;
mod slots;
mod split;
mod spot;
mod stepping;
mod story;
mod writing;

pub use finding::make_leaf;
pub use lending::lend;
pub use slots::{Container, Leaf, Slot, Tally};
pub use spot::{Root, Spot};
pub use stepping::Made;
pub use story::{set_story, take_story};
pub use writing::write_slots;
