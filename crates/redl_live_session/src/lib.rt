//! Sessions whose document is shown while it is decided: a session with an editor.
//! Read `LiveSession::start` first, then `admit` and `editor`. `admit` and `admit_many` put entries into the book or refuse them, as
//! those of `redl_session`'s `Session` do; the editor always lends and writes the document under the verdicts of that book.
//! Calls that decide a document once and write it take a `Session`, which keeps no leaves.
//! Its tests are in `redl_calls_tests`.
#![tactic(auto)]

mod admission;
mod live_session;
mod turning;

pub use admission::admit_each;
pub use live_session::LiveSession;
