//! The commands that write packages and journals: texts and the shelf go in; what is written, or why nothing is, comes out.
//!
//! Each command has a module with one public call, and read `settle_package` or `write_package` first. A call promises what its definition in
//! `redl_commands` says of the files that it names, or that the first cause of a refusal came before.
//! Its tests are whole calls, in the rows of `redl_rows`.
#![tactic(auto)]

mod choices;
mod decide;
mod gone;
mod join;
mod settle;
mod write;

pub use decide::decide_package;
pub use join::join_files;
pub use settle::settle_package;
pub use write::write_package;
