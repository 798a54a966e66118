//! Values of attributes.

pub use redl_relations::value_in;
