//! The commands that list what is in a package, `list` and `report`: texts, the shelf and the formats of the program go in; the listing or
//! the report, or why there is none, comes out.
//!
//! Each command has a module with one public call, and read `report_package` first. A call promises what its definition in
//! `redl_commands_shown` says of the files that it names, or that the first cause of a refusal came before, and which formats it
//! takes.
//! Its tests are whole calls, in the rows of `redl_rows`.
#![tactic(auto)]

mod list;
mod report;
mod shown;

pub use list::list_package;
pub use report::report_package;
