//! The page of a package: one HTML document that shows the document with its changes, for a reviewer who has only a browser.
//!
//! Read `write_page`. It puts the stories by `put_document`, then the list of the revisions with the reviewers' last words, and then what is
//! shown beside the text: comments, numbers of paragraphs and pictures. It takes no memory; `PageFacts::of` takes it before. No revision
//! is left out. What it puts is a list of pieces, in which a text from outside is written
//! escaped.
//! What decides, saves and looks well is the skin's, which the program brings.
//! Its tests are whole calls, in the rows of `redl_rows`.
#![tactic(auto)]

mod changes;
mod facts;
mod item;
mod laws;
mod page;
mod reviewers;

pub use facts::PageFacts;
pub use item::ItemWords;
pub use laws::each_revision_has_an_item;
pub use page::{Heading, Shown, Skin, write_page};
