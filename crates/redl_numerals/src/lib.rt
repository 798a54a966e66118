//! Numbers in the forms that word processors write before paragraphs: decimal, Roman, letters and ordinals.
//!
//! Read `put_numeral`, and `specs/Numerals.antt`. `read_number` reads a number of an attribute, and `read_format` the name of a form.
//! Which paragraph has which number is left to the crates above.
//! Rows by hand are in `proofs/Rows.antt`. Its tests are whole calls, in the rows of `redl_rows`.
#![tactic(auto)]

mod decimal;
mod format;
mod number;
mod numeral;
mod roman;

pub use format::{Format, read_format};
pub use number::{Number, read_number};
pub use numeral::put_numeral;
