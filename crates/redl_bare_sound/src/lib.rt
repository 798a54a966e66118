//! A law of the bare text: it says which units a document has and with which marks.
//!
//! Read `bare_text_is_injective`. So two documents with the same bare text differ in nothing that a reader can see and decide there.
//! The bare text itself is of `redl_bare`; no code is here.
#![tactic(auto)]

mod laws;

pub use laws::bare_text_is_injective;
