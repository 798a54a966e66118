//! What keeps the text of nodes from being read again: nodes go in, three answers come out.
//!
//! Read `Obstacles::of`. What a pass leaves of a sound package is a sound package again, unless its elements are deeper than a package may be, its
//! text is longer, or stretches that meet form `]]>`. That it is read again otherwise is a law of `redl_reread_sound`.
//! Its tests are whole calls, in the rows of `redl_rows`.
#![tactic(auto)]

mod depth;
mod obstacles;
mod stretch;

pub use obstacles::Obstacles;
