//! What a call comes to, as a definition, and what holds of it: no code makes it here.
//!
//! Read `specs/Outcome.antt` first: the outcome of a call is a function of the words, the files, what the program brings, and of how texts
//! are read. `specs/Plans.antt` has the plan of each command, and `specs/Answers.antt` what a status, bytes and lines are by an outcome.
//! The laws are functions without code: what they ensure holds of every outcome, as that what is left of a package is sound.
//! The call itself, which meets the outcome, is left to the crate above.
#![tactic(auto)]

mod laws;

pub use laws::{
    a_reader, one_outcome, order_does_not_count, order_of_sittings_does_not_count,
    samples_are_written, sittings_agree, sittings_differ, what_is_left_is_sound,
};
