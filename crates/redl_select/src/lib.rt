//! Selections and locks: which revisions of a package a reviewer means, and which ones nobody decides.
//! `choose` takes the index of a package and a selection, and gives the numbers that are chosen, ascending and each once. `chooses` asks
//! the same of one revision. Who calls them brings the edit of each revision, where a selection lists edits.
//! `holds` says whether a lock holds a revision, and `any_holds` whether one of several does.
//! The texts of selections are read by the crate above; what is decided on the chosen revisions is left to it too.
//! Rows by hand are in `proofs/LockRows.antt` and `proofs/Rows.antt`. Its tests are whole calls, in the rows of `redl_rows`.
#![tactic(auto)]

mod chosen;
mod in_order;
mod locks;

pub use chosen::{asks_edits, choose, chooses};
pub use locks::{any_holds, holds};
