//! Properties: the leaves of two lists of properties go in, and which properties differ comes out, each with its former and its present
//! value and said in words.
//!
//! Read `changes_between` first. A property is known by its path, as `vanish` or `pBdr/top`, or by its path and an attribute, as
//! `ind@left`. `PROPERTIES` has those that have a name; `property.rt`, `path.rt`, `name.rt` and `way.rt` are made by `tools/properties`.
//! How leaves come from the nodes of a document is left to the crate above.
//! Rows by hand are in `proofs/Rows.antt`. Its tests are whole calls, in the rows of `redl_rows`.
#![tactic(auto)]

mod amount;
mod attribute;
mod change;
mod changes;
mod leaves;
mod line;
mod name;
mod path;
mod property;
mod said;
mod utf8;
mod value;
mod way;
mod whole;

pub use attribute::{Attribute, Attributes, Leaf, Leaves};
pub use change::{Changed, Changes};
pub use changes::{changes_between, first_changes};
pub use line::line_of;
pub use property::{PROPERTIES, Property, Way};
pub use utf8::Utf8Text;
pub use value::Value;
