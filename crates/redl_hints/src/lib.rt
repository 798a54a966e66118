//! Hints for the person at the terminal: what probably went wrong with a call, and what to try.
//! The words of the call, the program's help, the lines that the call told and the file that it read last go in; lines that
//! begin with `redline: hint: ` come out. Read `tell_hints` first.
//! Hints have no say in a call's status or bytes: whatever they say, the call has ended before. They are tested and not
//! specified, and a script passes over them.
#![tactic(auto)]

mod alike;
mod authors;
mod choices;
mod fetched;
mod first_bytes;
mod hint;
mod journals;
mod names;
mod numbers;
mod packages;
mod places;
mod reviewers;
mod rules;
mod tell;
mod usage;
mod values;

pub use fetched::{Fetched, Remembered};
pub use first_bytes::FirstBytes;
pub use tell::{tell_hints, tell_word_hint};
