//! The marked text of a document: a package with its revisions numbered goes in, and its text with a sign for each member of a
//! revision goes out, so that a reader sees what each number is.
//!
//! Read `put_marked`, and `specs/MarkedText.antt` for what it puts. It goes over the original once, makes no tree and takes no
//! memory. `each_member_has_its_sign` states that no revision with a member is left out.
//! Which revisions there are, and what is decided on them, is left to the crates below and above.
//! Its tests are whole calls, in the rows of `redl_rows`.
#![tactic(auto)]

mod idle;
mod last;
mod laws;
mod package;
mod signs;
mod summary;
mod walk;

pub use laws::each_member_has_its_sign;
pub use package::put_marked;
