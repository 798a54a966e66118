//! Texts that lack a word: a text and words go in, and whether they are nowhere in it comes out.
//!
//! Read `lacks_pairs`: it looks at 64 bytes at a time for two words of two bytes, so a text is passed over quicker than by a search
//! for each of its bytes. By its law `lacks-longer` such a text lacks each longer word that begins so. `lacks_word` tells where a
//! text holds one of them. What the words tell is left to the crates above.
//! Its tests are whole calls, in the rows of `redl_rows`.
#![tactic(auto)]

mod pairs;
mod word;

pub use pairs::lacks_pairs;
pub use word::lacks_word;
