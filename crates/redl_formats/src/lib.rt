//! Formats of items, as the rows of a listing or the lines of a report, and the fields of which their texts are made.
//!
//! Read `LineFormat` first: with an `Item` and a `ItemText` for it, it is a line for each item; `ArrayFormat` is an array of JSON.
//! Both promise at each moment the text that `specs/Formats.antt` gives for the items so far. Columns, tabs, members of objects and
//! dates are functions that add exactly their text.
//! What the items are, and which formats there are by what names, is left to the crates above.
//! Rows by hand are in `proofs/Rows.antt`. Its tests are whole calls, in the rows of `redl_rows`.
#![tactic(auto)]

mod array_format;
mod dates;
mod draft;
mod fields;
mod line_format;
mod members;
mod piece;

pub use array_format::ArrayFormat;
pub use dates::moment_text;
pub use fields::{
    push_date, push_escaped, push_left, push_number, push_right, push_spaces, verdict_name,
    word_name,
};
pub use line_format::LineFormat;
pub use members::{put_date, put_number, put_text};
pub use piece::{Item, ItemText};
