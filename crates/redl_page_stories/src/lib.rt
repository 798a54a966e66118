//! The stories of a page: a package whose revisions are numbered goes in, and comes out as HTML with an element for each member of a
//! revision.
//!
//! Read `put_document`. It puts the list of pieces of `specs/Document.antt` in one walk over each story and without memory, and no
//! member of a revision is left out. `StoryFacts` holds what is made of the package before: signs of notes, and hidden styles.
//! The list of the revisions, the reviewers, and what is round all of it is left to `redl_page`.
//! Its tests are whole calls, in the rows of `redl_rows`.
#![tactic(auto)]

mod behind;
mod embed;
mod emphasis;
mod facts;
mod idle;
mod laws;
mod marks;
mod nodes;
mod notes;
mod place;
mod sections;
mod shape;
mod shown;
mod sign;
mod starts;
mod values;

pub use facts::StoryFacts;
pub use laws::each_member_has_an_element;
pub use sections::put_document;
