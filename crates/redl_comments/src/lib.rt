//! What the comments of a package say: a package goes in, and its comments come out, with their authors, dates and texts, the comments
//! that they reply to, and whether they are done.
//!
//! Read `comments_of` and `threads_of` first, and `specs/Comments.antt` and `specs/Threads.antt`. The parts are those to which the
//! relationships of the document lead. Where comments are, and on which revisions, is left to the crates above.
//! Rows by hand are in `proofs/Rows.antt`. Its tests are whole calls, in the rows of `redl_rows`.
#![tactic(auto)]

mod comment;
mod comments;
mod firsts;
mod parts;
mod state;
mod states;
mod thread;

pub use comment::Comment;
pub use comments::comments_of;
pub use firsts::Firsts;
pub use state::State;
pub use states::states_of;
pub use thread::{Threads, threads_of};
