//! What the numbering part and the styles part of a package say: lists with their levels, nums with their overrides, and styles.
//!
//! Read `Tables::read`, and `specs/Tables.antt`. `Own::of` reads what a paragraph says. Each part is gone over as often as there are tables,
//! whether it is kept as a tree or as text, and no property refuses it: what can't be read is as if it weren't there. Which num a paragraph
//! has, and how paragraphs are counted, is left to the crates above. Its tests are whole calls, in the rows of `redl_rows`.
#![tactic(auto)]

mod level;
mod listed;
mod own;
mod part;
mod table;
mod value;
mod within;

pub use level::Level;
pub use listed::Listed;
pub use own::Own;
pub use part::Part;
pub use table::{AbstractNum, Num, Override, Style, Tables};
