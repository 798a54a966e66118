//! Where revisions are: a numbered package goes in, and the place of each revision comes out, as a reader names it: the document, a
//! header, a footer, a comment, a text box, or a note by its sign.
//!
//! Read `Places::of`, and `specs/Places.antt`. It goes over each story once. `text_of` says a place in words. Which sign a reader sees
//! at a reference in the text is `specs/Signs.antt`, and `NoteSigns::of` the table of them; what is listed with a place is left to the
//! crates above.
#![tactic(auto)]

mod place;
mod places;
mod sign;
mod text;
mod walk;

pub use place::{MemberPlace, StoryPlace};
pub use places::Places;
pub use sign::{NoteSign, NoteSigns};
pub use text::text_of;
