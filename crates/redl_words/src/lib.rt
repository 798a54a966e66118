//! The words of a command line, and the command that they are.
//! `read_words` takes the words without the program's name, and gives the one command that they are the words of, or says that
//! there is none. Which words each command has is a relation in `specs/Commands.antt`. `given_words` copies the words that the system
//! gives.
//! What a command does is left to the crate above.
//! Its tests are whole calls, in the rows of `redl_rows`.
#![tactic(auto)]

mod command;
mod error;
mod given;
mod items;
mod laws;
mod locks;
mod names;
mod only;
mod options;
mod ranks;
mod reading;
mod selections;
mod sittings;
mod verb;

pub use command::{
    Command, DecideCommand, ListCommand, PageCommand, ReportCommand, ResumeCommand, View,
};
pub use error::WordsError;
pub use given::{add_word, given_words, words_of};
pub use laws::one_command;
pub use only::Only;
pub use reading::read_words;
