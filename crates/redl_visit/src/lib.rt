//! One walk over the elements of a story, for all that look at them and for all that label them.
//!
//! Read `Visitor` first, then `visit_kids`, which begins at the kids of a story's root. A visitor is called before the kids of each
//! element and after them, in the order of the text, and is handed a summary of the element's ancestors; `Both` takes two visitors
//! along in one walk.
//! The walk promises a fold over what code has at hand: `visited` of `specs/Visits.antt`, and for labels `relabelled` of
//! `specs/Labelling.antt`.
//! What a visitor looks for, and that its fold is what a definition says, is left to the crates above.
//! Rows by hand are in `proofs/Rows.antt`. Its tests are whole calls, in the rows of `redl_rows`.
#![tactic(auto)]

mod ancestors;
mod both;
mod element;
mod labels;
mod visit;

pub use ancestors::{Ancestors, Summary};
pub use both::Both;
pub use element::Element;
pub use labels::{Label, Labeller, label_kids};
pub use visit::{Visitor, visit_kids};
