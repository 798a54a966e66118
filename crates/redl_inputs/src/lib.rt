//! The inputs of a call: files from the shelf, the package of a text, journals, and the session that they make.
//!
//! Read `open` first: it gives the session over a package with the entries of journals, as `specs/Admission.antt` defines it.
//! Each step of a call cites `ReadsFiles` or `Reads` of `specs/Reading.antt`: it made what was due by the files, or failed.
//! What a command writes, and how a call ends, is left to the layer above.
//! Its tests are whole calls, in the rows of `redl_rows`.
#![tactic(auto)]

mod admitted;
mod document;
mod fetch;
mod idle;
mod journals;
mod package;
mod sessions;

pub use admitted::Admitted;
pub use document::{Document, DocumentId, LazyDigest};
pub use fetch::{PACKAGE_LIMIT, fetch_file, fetch_package, name_of};
pub use journals::{JOURNALS_LIMIT, add_entries, join_journals, read_first};
pub use package::{pass_nodes, read_package};
pub use sessions::{open, open_package, sit, start};
