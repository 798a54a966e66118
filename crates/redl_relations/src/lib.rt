//! The relationships between the parts of a package: a part and a type or an id go in, the number of the part to which they lead
//! comes out.
//!
//! Read `part_by_type` first, and `specs/Relations.antt`. `document_part` is where a reader begins, and `xml_data` gives what a
//! part holds. Which parts are asked for, and what is found in them, is left to the crates above.
//! Rows by hand are in `proofs/Rows.antt`. Its tests are whole calls, in the rows of `redl_rows`.
#![tactic(auto)]

mod leads;
mod names;
mod parts;
mod relations;
mod sought;
mod table;
mod values;

pub use leads::Leads;
pub use names::target_name;
pub use parts::{document_part, part_named, xml_data};
pub use relations::{part_by_id, part_by_type, relations_of};
pub use values::value_in;
