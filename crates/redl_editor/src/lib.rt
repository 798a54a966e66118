//! The editor: a package that is decided revision by revision, where a changed say costs only the leaves that hold the revision.
//! Read `Editor::new` first, then `Editor::set_many`. Contracts see an editor as the package's original nodes and the say of each
//! revision (`specs/Documents.antt`): each lent leaf is the present leaf under these says, and what is written is the pass.
//! One story is kept by `redl_leaves`; which says the reviewers' verdicts come to is left to the crates above.
//! Its tests are in `redl_calls_tests`.
#![tactic(auto)]

mod bulk;
mod changing;
mod editor;
mod finding;
mod holding;
mod making;
mod numbering;
mod places;
mod story;
mod table;
mod taking;
mod touching;
mod walking;
mod writing;

pub use changing::Change;
pub use editor::Editor;
