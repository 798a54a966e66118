//! A law: a journal is read back from the text as which it is written.
//! Read `what_is_written_is_read`. The text is `redl_journal`'s; what its reader makes of bytes is too.
#![tactic(auto)]

mod laws;

pub use laws::what_is_written_is_read;
