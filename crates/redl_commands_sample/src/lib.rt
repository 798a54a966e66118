//! The command `sample`: a number goes in; the summary of the sample with so many paragraphs, or why there is none, comes out.
//!
//! `make_sample` promises what `redl_commands` defines. The session keeps an editor, which follows each entry; no other command needs
//! one, so the others are in crates that are proved before the editor is.
//! Its tests are whole calls, in the rows of `redl_rows`.
#![tactic(auto)]

mod sample;

pub use sample::make_sample;
