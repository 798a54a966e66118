//! The kinds of revisions with their names, and what selections and locks say of revisions by kind, author, moment and number.
//!
//! Nothing here looks at a package. `redl_index` finds the revisions, `redl_select` says which of them a selection chooses and a
//! lock holds, and `redl_words` reads both from the words of a command line.
//! Rows by hand are in `proofs/Rows.antt`. Its tests are whole calls, in the rows of `redl_rows`.
#![tactic(auto)]

mod group;
mod kind_names;
mod lock;
mod rev_kind;
mod selection;

pub use group::Group;
pub use kind_names::{KINDS, kinds_are_listed_once, one_kind_for_a_name};
pub use lock::Lock;
pub use rev_kind::RevKind;
pub use selection::{Listed, Selection};
