//! Sessions: a package under the decisions of its reviewers, entry by entry.
//! `Session::start` takes a sound package with its index; `admit` and `admit_many` put entries into its book or refuse them.
//! The says are always those of the book's verdicts, and what is written is the pass under them: a sound package again.
//! `redl_join` keeps the book, `redl_resolve` makes the pass; reading journals and telling of refusals is left to the crates above.
//! Its tests are in `redl_calls_tests`.
#![tactic(auto)]

mod admission;
mod laws;
mod locks;
mod refusal;
mod says;
mod session;

pub use admission::{add_copy, cause, take_in};
pub use laws::{admissions_make_the_union, order_does_not_count};
pub use locks::Locks;
pub use refusal::{AdmitError, Bar, Refusal, SessionWriteError, Taken};
pub use says::{book_says, say_of, verdicts};
pub use session::Session;
