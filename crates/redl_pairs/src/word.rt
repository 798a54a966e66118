//! A search for a word.

ghost use Rattle.std.specs.Prelude.{◌≡◌, ◌∷◌, drop};
ghost use Rattle.redl_reading.specs.Lists.{begins, lacks};

use redl_reading::{far_until, skip};

fn begins(text: &[u8], word: &[u8]) -> bool
    ensures { result ≡ begins word.now text.now }
{
    match skip(text, word) {
        Some(_) => true,
        None => false,
    }
}

// Whether a word with this first byte is nowhere in the text.
#[tactic(auto, using(redl_reading::proofs::Words::lacks_after, redl_reading::proofs::Runs::after_fits))]
fn lacks_filled(text: &[u8], word: &[u8], first: u8) -> bool
    requires { word.now ≡ first ∷ drop 1 word.now }
    ensures { result ≡ lacks word.now text.now }
{
    let (_, mut rest) = far_until(text, first);
    while let Some((_, next)) = rest.split_first() {
        if begins(rest, word) {
            return false;
        }
        rest = far_until(next, first).1;
    }
    true
}

/// Whether a word is nowhere in the text. The empty word is everywhere.
pub fn lacks_word(text: &[u8], word: &[u8]) -> bool
    ensures { result ≡ lacks word.now text.now }
{
    match word.split_first() {
        Some((first, _)) => lacks_filled(text, word, *first),
        None => false,
    }
}
