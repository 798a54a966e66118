//! Which revisions have to do with hidden text: they change whether a run is hidden, hold something of a hidden run, or stand in one.
//!
//! Read `hidden_of`, and `specs/Walks.antt`. It walks the stories of a package once. Which runs are hidden is said by `redl_hidden`, and how
//! a listing shows the answers is left to the crates above. Its tests are whole calls, in the rows of `redl_rows`.
#![tactic(auto)]

mod around;
mod heard;
mod idle;
mod stories;
mod unit;
mod walk;
mod walked;

pub use stories::hidden_of;
