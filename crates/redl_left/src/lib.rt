//! What a document still holds that a reader doesn't see: the nodes of a package go in, lines come out.
//!
//! Read `lines` first. It goes twice over all nodes, and asks for each element which row of a table it is a find of: a row is a
//! fact, a test of an element, and what is told of it. The first walk (`gather.rt`) finds what names comments, notes and authors
//! (`NAMING`), and the second one (`walk.rt`) all that is left (`ROWS`), and where else the name of an author stands. `lines`
//! promises the finds of each fact in their order, where neighbours in one part with one value are one line. Kept text is read piece
//! by piece (`pieces.rt`), and a tag that was read before is known by its text (`tags.rt`). Which revisions a package has, how their
//! members are marked, and the texts of the lines are left to other crates.
//! Its tests are whole calls, in the rows of `redl_rows`.
#![tactic(auto)]

mod element;
mod fact;
mod find;
mod gather;
mod left;
mod line;
mod name;
mod named;
mod names_told;
mod names_usual;
mod notes;
mod pieces;
mod quotes;
mod row;
mod rows;
mod search;
mod seen;
mod tags;
mod told;
mod usual;
mod walk;

pub use fact::Fact;
pub use left::lines;
pub use line::Line;
pub use name::Name;
pub use row::{Row, Value, When, Where};
pub use rows::{NAMING, ROWS};
