//! Two sittings over one document: the numbers of what the first one left, and the joined book of both.
//!
//! A desk decides a part of a document, writes it, and decides the rest on what was written. What was written has numbers of
//! its own. `map_back` gives the number in the first document of each revision of the second one, and `joined` makes one book for
//! the first document of the books of both sittings. Each has two halves, for a caller that keeps one package at a time:
//! `numbers_by_part` and `first_numbers`, `decided` and `add_second`.
//! Whether both sittings come to the same document is left to the layer above.
//! Its tests are in `redl_pass_tests`.
#![tactic(auto)]

mod along;
mod back;
mod book;
mod parts;

pub use back::{first_numbers, map_back};
pub use book::{add_second, decided, joined};
pub use parts::numbers_by_part;
