//! Texts in which no name of an idle mark can be.

ghost use Rattle.std.specs.Prelude.{◌≡◌};
ghost use Rattle.redl_undecided.specs.Middles.{lacks_middles};

use redl_pairs::{lacks_pairs, lacks_word};

/// Whether neither `Change` nor `Xml` is in the text. One of them is in each name of an idle mark.
pub(crate) fn lacks_middles(text: &[u8]) -> bool
    ensures { result ≡ lacks_middles text.now }
{
    // Mostly not even their first two bytes are there.
    if lacks_pairs(text, (b'C', b'h'), (b'X', b'm')) {
        return true;
    }
    lacks_word(text, b"Change") && lacks_word(text, b"Xml")
}
