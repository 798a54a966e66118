//! How a call ends: why it fails, the status of each end, and its lines on standard error.
//!
//! Read `tell` first: it writes the lines of an end, which `specs/Ends.antt` and `specs/Lines.antt` define.
//! The layer above makes the end, and its status is a function of it alone. Names in the lines are masked for a terminal.
//! When a failure comes, and which of several counts, is not said here. A refused entry has the cause that a session gave.
//! Its tests are whole calls, in the rows of `redl_rows`.
#![tactic(auto)]

mod causes;
mod end;
mod failure;
mod lines;
mod misuse;
mod named;
mod note;
mod refused;
mod remarks;
mod status;

pub use end::{CallEnd, End};
pub use failure::{Cause, Failure, Limit, PackageFault};
pub use lines::tell;
pub use misuse::Misuse;
pub use note::{Note, Obstacle};
pub use refused::RefusedEntries;
pub use remarks::Remarks;
pub use status::Status;
