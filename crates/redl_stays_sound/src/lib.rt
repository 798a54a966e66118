//! Laws of the pass: which revisions stay marked, that no decided one does, and that none is left where all are decided.
//!
//! Read `kept_marks_stay`: after any pass the content revisions and markers of moves of a story are exactly the ones with the say Keep that
//! are in nothing that goes, so what is open stays marked. `decided_marks_go` says of all revisions, those in properties too (marks of
//! paragraphs, rows, cells, changes of properties), that none that is decided stays, and `kept_members_stay` that each that is kept does, unless
//! what is around it goes. `all_decided_settle`: where all are decided, no member of a revision is left or found anew.
#![tactic(auto)]

mod laws;

pub use laws::{all_decided_settle, decided_marks_go, kept_marks_stay, kept_members_stay};
