//! What is shown of a listing.

ghost use Rattle.std.specs.Prelude.{◌≡◌};
ghost use Rattle.redl_words.specs.Reading.Answers.{Finds};
ghost use Rattle.redl_words.specs.Reading.Shown.{only_in, verdict_in};
ghost use Rattle.redl_words.specs.Views.{only_of};

use crate::error::WordsError;
use crate::selections::read_selection;
use redl_join::Verdict;
use redl_kinds::Selection;
use std::alloc::Global;

/// Which revisions a listing shows.
#[derive(Drop)]
pub enum Only {
    /// Those that this selection chooses.
    Chosen(Selection),
    /// Those with this verdict.
    Decided(Verdict),
}

/// What a text shows: the revisions with the verdict that it names, or those of a selection.
#[tactic(auto, unfolding(crate::specs::Reading::Shown::only_in))]
pub(crate) fn read_only(alloc: Global, text: &str) -> Result<Only, WordsError>
    ensures { Finds only_of result (only_in text.now) }
{
    if let Some(verdict) = read_verdict(text.as_bytes()) {
        return Ok(Only::Decided(verdict));
    }
    let selection = read_selection(alloc, text)?;
    Ok(Only::Chosen(selection))
}

// The verdict with this name.
#[tactic(auto, unfolding(crate::specs::Reading::Shown::verdict_in))]
fn read_verdict(word: &[u8]) -> Option<Verdict>
    ensures { result ≡ verdict_in word.now }
{
    if word == b"open".as_slice() {
        Some(Verdict::Undecided)
    } else if word == b"accept".as_slice() {
        Some(Verdict::Accept)
    } else if word == b"reject".as_slice() {
        Some(Verdict::Reject)
    } else if word == b"disputed".as_slice() {
        Some(Verdict::Disputed)
    } else {
        None
    }
}
