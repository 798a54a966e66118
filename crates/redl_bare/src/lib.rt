//! The bare text of a document: its stories with their revisions numbered go in, in their order, and what a reader can see and decide
//! goes out, with nothing of how the file is made.
//!
//! Read `put_bare`, `specs/Units.antt` for the units of a document, `specs/Fields.antt` for the results of fields that are left out,
//! `specs/Marks.antt` for who changed the units, and `specs/BareText.antt` for how they are written. It goes over each story once and
//! takes no memory.
//! Numbers, the order of stories, and what is decided, are left to the crates below and above.
//! Its tests are whole calls, in the rows of `redl_rows`.
#![tactic(auto)]

mod clean;
mod escape;
mod fields;
mod idle;
mod line;
mod marks;
mod object;
mod package;
mod place;
mod stamp_text;
mod stamps;
mod starts;
mod texts;
mod units;
mod values;
mod walk;
mod writer;

pub use object::Object;
pub use package::put_bare;
pub use place::BarePlace;
pub use units::{Story, Thing};
pub use writer::Writer;
