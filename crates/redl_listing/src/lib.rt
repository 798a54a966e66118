//! Listings: the rows of a package's revisions, as the text of a format that is chosen by its name.
//!
//! Read `list` first. It takes the first format with a name out of a list of boxed formats, gives it a row for each revision,
//! closes it and hands its text out. It rests on what `RowFormat` promises, whatever boxes the caller made.
//! `TextFormat`, `TabFormat`, `JsonFormat`, `WordsFormat` and `FullFormat` are the formats of the program: lines or an array of rows, with a
//! `ItemText` for each.
//! Which revisions there are and what was decided on them is left to the crates below.
//! Its tests are whole calls, in the rows of `redl_rows`.
#![tactic(auto)]

mod changed_rows;
mod format;
mod full_rows;
mod json_rows;
mod listing;
mod named;
mod remark_rows;
mod row;
mod tab_rows;
mod text_rows;
mod words_rows;

pub use format::{
    FullFormat, JsonFormat, RowError, RowFormat, TabFormat, TextFormat, WordsFormat, shows_details,
};
pub use full_rows::FullRows;
pub use json_rows::JsonRows;
pub use listing::{Listed, add_format, list, list_in};
pub use named::{Named, has_name, take_named};
pub use row::Row;
pub use tab_rows::TabRows;
pub use text_rows::TextRows;
pub use words_rows::WordsRows;
