//! The sample: a package with a given number of paragraphs and the journals of three reviewers on it, made without
//! reading a file, and the summary of what the reviewers' decisions come to.
//!
//! Read `sample_package` and `sample_journal` first: each gives exactly what `specs/` defines for its number. The layer
//! above runs them through a session, and puts the `SampleSummary`.
//! Its tests are whole calls, in the rows of `redl_rows`.
#![tactic(auto)]

mod block;
mod entries;
mod journal;
mod make;
mod revisions;
mod summary;
mod tally;

pub use journal::sample_journal;
pub use make::{SAMPLE_LIMIT, sample_package};
pub use summary::SampleSummary;
pub use tally::Tally;
