//! The promise of `write`, in one screen.
//!
//! Read `specs/Headline.antt`: what goes out of a call of `write` with the status 0 or 1, over definitions that `docs/PROVED.md` lists in a
//! reading order. `run_written` is the program's call, and its one clause is that promise.
#![tactic(auto)]

mod written;

pub use written::run_written;
