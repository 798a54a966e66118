//! The lines of what a document still holds, as texts: `text_of` makes one for a desk, `json_of` one for programs.
//!
//! Which lines there are is left to `redl_left`, and how texts go out to the crates above.
//! Its tests are whole calls, in the rows of `redl_rows`.
#![tactic(auto)]

mod json_lines;
mod text_lines;

pub use json_lines::json_of;
pub use text_lines::text_of;
