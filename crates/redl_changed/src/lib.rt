//! Changed properties: a change of properties goes in, with the list that it stands in, and the properties that differ come out.
//!
//! Read `changed_of` first. It flattens the former and the present list to leaves, each with its path and its attributes, and leaves
//! out what a rejection of the change leaves in place. In words it is one line. A very long list is not compared, and the line says so.
//! Which properties of two lists of leaves differ, and their words, is left to the crate below; where it is shown, to those above.
//! Rows by hand are in `proofs/Rows.antt`. Its tests are whole calls, in the rows of `redl_rows`.
#![tactic(auto)]

mod changed;
mod kept;
mod laid;
mod leaf;
mod leaves;
mod names;

pub use changed::{ChangedSaid, changed_of};
