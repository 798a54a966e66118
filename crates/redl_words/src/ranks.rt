//! Ranks of reviewers: a number from 0 to 9.

ghost use Rattle.std.specs.Prelude.{◌≡◌};
ghost use Rattle.redl_words.specs.Reading.Ranks.{rank_in};

use redl_journal::read_number;

/// The rank that digits write: a number up to 9.
#[tactic(auto, unfolding(crate::specs::Reading::Ranks::rank_in))]
pub(crate) fn read_rank(digits: &[u8]) -> Option<u8>
    ensures { result ≡ rank_in digits.now }
{
    let number = read_number(digits)?;
    if number > 9 {
        return None;
    }
    Some(number as u8)
}
