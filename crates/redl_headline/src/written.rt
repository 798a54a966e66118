//! The program's call, with what it promises of `write`.

ghost use Rattle.std.specs.Prelude.{All, IsUtf8};
ghost use Rattle.redl_headline.specs.Headline.{Headline};

use redl_app::{Status, run_words};
use redl_io::{Shelf, Sink, Text};
use redl_page::Skin;
use std::alloc::Global;

/// Does what the words ask, as `run_words` does. Of a call of `write` with the status `Done` or `Refused`, over a shelf and an output that
/// tell what they hold, the clause says what went out.
pub fn run_written<F: Shelf, O: Sink, E: Sink>(
    alloc: Global,
    words: &[Text],
    shelf: &mut F,
    out: &mut O,
    err: &mut E,
    skin: &Skin<'_>,
) -> Status
    requires utf8 { All IsUtf8 words.now }
    ensures { Headline words.now (F.told shelf.old) (O.told out.old) (O.told out.new) result }
{
    run_words(alloc, words, shelf, out, err, skin)
}
