//! Reading bytes from the left: a run of bytes that pass a test, a word, a field with the byte that ends it.
//! Each call gives what it read and the bytes after it. Read `run` and `skip` first.
//! `specs/` has the same as functions on lists: a call `Gives` what the function reads, and the laws in `proofs/` say that what
//! was read stands there, and that what stands there is read.
//! What the bytes are the text of is left to the crates above.
#![tactic(auto)]

mod scan;

pub use scan::{before, far_until, field, past, run, skip};
