//! The laws of the pass: what a decided document has of the original, and that it is sound again.
//!
//! All laws are proved of the definitions of `redl_tree` alone. Survival: the text pieces that are left are the survivors, each once
//! and in its order (`proofs/Survival`). Soundness: each rule of structure that held holds again (`proofs/Soundness`). An element has
//! one role at most (`proofs/OneRole`). What an editor keeps of a story as containers and leaves is its pass (`proofs/Leaves`, with
//! the statements in `leaf_laws`). Worked rows compute the definitions (`proofs/Rows`).
#![tactic(auto)]

mod leaf_laws;

pub use leaf_laws::{
    a_container_elsewhere_stays, a_leaf_elsewhere_stays, an_undecided_leaf_stays,
    leaves_are_made_once, leaves_are_the_original, leaves_hold_the_members, leaves_make_the_pass,
    numbers_tell_what_goes, other_says_stay, outer_leaves_make_the_pass, settings_keep_states,
    states_begin_undecided, states_show_stories, states_write_the_pass,
};
