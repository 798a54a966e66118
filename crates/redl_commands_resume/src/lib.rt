//! The command `resume`: two packages and the journals of two sittings go in; the journal of both, or why there is none, comes out.
//!
//! `resume_package` promises what `redl_commands_shown` defines of the files that it names, or that the first cause of a refusal came before.
//! It is the longest of the commands that write journals, so it is proved beside them.
//! Its tests are whole calls, in the rows of `redl_rows`.
#![tactic(auto)]

mod resume;

pub use resume::resume_package;
