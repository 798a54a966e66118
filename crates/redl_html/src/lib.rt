//! Texts from outside in HTML: bytes of a document, an author or a reviewer go in, and come out as text that no browser reads as
//! markup.
//!
//! Read `put_escaped`. A page is a list of pieces, of `specs/Pieces.antt`: a text of the program's own, a number, or a text from
//! outside, which alone holds bytes and is written escaped. A text that comes in parts is put part by part.
//! Which pieces a page has is left to the crates above.
//! Rows by hand are in `proofs/EscapingRows.antt`. Its tests are whole calls, in the rows of `redl_rows`.
#![tactic(auto)]

mod escape;
mod laws;

pub use escape::put_escaped;
pub use laws::texts_from_outside_are_safe;
