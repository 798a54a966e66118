//! Worked rows of the definitions of texts, packages, words, lines and whole calls: what each gives for a small input.
//!
//! The values are those of XML 1.0, Namespaces in XML 1.0, ECMA-376 and our own papers. Read `specs/Calls.antt` first, which has whole
//! calls with their status, bytes and lines. Rows of the definitions of the pass are in `redl_laws`, those of journals in `redl_journal`.
#![tactic(auto)]

mod laws;

pub use laws::{calls_are_worked_out, signs_say_their_kinds};
