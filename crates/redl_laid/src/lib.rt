//! Reads the nodes that a list keeps as text, one after the other and without memory.
//!
//! Begin with `Laid`: `Laid::of` takes the kept text, and `first` gives its first node and those after it. An element's kids are read
//! the same way.
//! Its tests are whole calls, in the rows of `redl_rows`.
#![tactic(auto)]

mod laid;

pub use laid::{First, Laid, LaidElem};
