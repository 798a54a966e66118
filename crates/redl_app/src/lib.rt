//! The top call: from the words of a command line and the files that they name to the bytes, the lines and the status.
//!
//! Read `run` first: its clauses say what goes out and which status comes when, by the outcome of a call in
//! `redl_outcome`. Then `answer`: the same with what the program brings to a call, its formats, its help and its version.
//! What each command writes is defined in `redl_commands` and `redl_commands_shown`, and made in the five crates of commands above
//! these.
//! Real files and streams are made by the program above.
//! Its tests are in `redl_app_tests`, and `redl_rows` runs whole calls with what each of them must write.
#![tactic(auto)]

mod answers;
mod brings;
mod call;
mod commands;
mod formats;
mod own;
mod plan;
mod tell;
mod top;

pub use answers::answer;
pub use brings::Bringing;
pub use call::run_words;
pub use own::{Own, Part, Program, Texts, own_of};
pub use redl_inputs::{JOURNALS_LIMIT, PACKAGE_LIMIT};
pub use redl_lines::Status;
pub use redl_words::WordsError;
pub use tell::tell_text;
pub use top::{refuse_words, run, run_surely};
