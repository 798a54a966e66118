//! The journals of two sittings, in any order.

ghost use Rattle.std.specs.Prelude.{◌≡◌, ◌≤◌, ◌∷◌, ◌&&◌, IfOk, codes, length};
ghost use Rattle.std.specs.Str.{bytes_eq};
ghost use Rattle.redl_words.specs.Items.{is_name};
ghost use Rattle.redl_words.specs.Reading.Answers.{Finds};
ghost use Rattle.redl_words.specs.Reading.Sittings.{GoesOn, no_sittings, sittings_in, sittings_view};

use crate::error::WordsError;
use crate::names::{add_copy, is_file_name};
use redl_io::Text;
use std::alloc::Global;

/// The names of the journals of two packages.
#[derive(Drop)]
pub(crate) struct Sittings {
    /// Those of the first package.
    pub firsts: Vec<Text>,
    /// Those of the second one.
    pub seconds: Vec<Text>,
}

impl Sittings {
    // No journals.
    fn nothing(alloc: Global) -> Sittings
        ensures { sittings_view result ≡ no_sittings }
    {
        Sittings {
            firsts: Vec::new(alloc),
            seconds: Vec::new(alloc),
        }
    }

    // Adds the first journal, whose words begin with this one, and gives the words after it.
    fn add_journal<'a>(
        &mut self,
        alloc: Global,
        word: &Text,
        later: &'a [Text],
    ) -> Result<&'a [Text], WordsError>
        ensures read { GoesOn (sittings_view self.old) (word.now ∷ later.now) (sittings_view self.new) result }
        ensures shorter { IfOk result (λ rest. length rest.now ≤ length later.now) }
    {
        if is_file_name(word.as_bytes()) {
            add_copy(alloc, &mut self.seconds, word)?;
            return Ok(later);
        }
        match later.split_first() {
            Some((name, after)) if names_first(word, name) => {
                add_copy(alloc, &mut self.firsts, name)?;
                Ok(after)
            }
            _ => Err(WordsError::Usage),
        }
    }
}

// Whether these two words name a journal of the first package.
fn names_first(word: &Text, name: &Text) -> bool
    ensures { result ≡ (bytes_eq word.now (codes "--journal") && is_name name.now) }
{
    word.as_bytes() == b"--journal".as_slice() && is_file_name(name.as_bytes())
}

/// The journals that these words name.
pub(crate) fn read_sittings(alloc: Global, words: &[Text]) -> Result<Sittings, WordsError>
    ensures { Finds sittings_view result (sittings_in no_sittings words.now) }
{
    let mut sittings = Sittings::nothing(alloc);
    let mut rest = words;
    while let Some((word, later)) = rest.split_first() {
        rest = sittings.add_journal(alloc, word, later)?;
    }
    Ok(sittings)
}
