//! What commands make of their files, as definitions, and how that goes out.
//!
//! Read `specs/Settle.antt` or `specs/Write.antt` first: a command has a module there, or in `redl_commands_shown` where it needs more than
//! a session. The module says what is written for the files that the command names, or for which first cause nothing is. `put` promises how
//! a call ends that writes what it made.
//! The code that makes it is left to five crates beside each other: `redl_commands_write`, `redl_commands_resume`, `redl_commands_list`,
//! `redl_commands_show` and `redl_commands_sample`.
//! Its tests are whole calls, in the rows of `redl_rows`.
#![tactic(auto)]

mod collected;
mod edits;
mod notes;
mod output;

pub use collected::Collected;
pub use edits::edits_if;
pub use notes::{note_again, note_marks};
pub use output::{Output, Writing, put};
