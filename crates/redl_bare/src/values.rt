//! Values of attributes, as they are written.

pub(crate) use redl_order::value_in;
