//! The plain text of a document before or after its revisions: a package and a say for each revision go in, text goes out.
//!
//! Read `view`. It promises the plain text of `specs/PlainText.antt` of what the pass leaves, and writes it in one walk over
//! the original: it makes no tree and takes no memory. How a program shows a text is left to its reader.
//! Its tests are in `redl_tree_tests`.
#![tactic(auto)]

mod idle;
mod known;
mod next;
mod package;
mod summary;
mod walk;
mod ways;

pub use idle::put_idle_start;
pub use package::view;
pub use walk::put_start;
