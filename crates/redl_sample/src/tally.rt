//! How many revisions have each verdict.

ghost use Rattle.std.specs.Prelude.{◌≡◌, count_by};
ghost use Rattle.redl_sample.specs.Summaries.{is_verdict, tally_of};

use redl_join::Verdict;

/// How many revisions have each verdict.
#[derive(Clone, Copy, Debug, PartialEq, Eq)]
pub struct Tally {
    /// Those that are accepted.
    pub accepted: usize,
    /// Those that are rejected.
    pub rejected: usize,
    /// Those on which the reviewers' words differ.
    pub disputed: usize,
    /// Those on which no word counts.
    pub undecided: usize,
}

impl Tally {
    /// How many of the verdicts are of each kind.
    pub fn of(verdicts: &[Verdict]) -> Tally
        ensures { result ≡ tally_of verdicts.now }
    {
        Tally {
            accepted: count(verdicts, Verdict::Accept),
            rejected: count(verdicts, Verdict::Reject),
            disputed: count(verdicts, Verdict::Disputed),
            undecided: count(verdicts, Verdict::Undecided),
        }
    }
}

// How many of the verdicts are this one.
fn count(verdicts: &[Verdict], wanted: Verdict) -> usize
    ensures { result ≡ count_by (is_verdict wanted) verdicts.now }
{
    verdicts
        .iter()
        .filter(|verdict| is_verdict(wanted, **verdict))
        .count()
}

fn is_verdict(wanted: Verdict, verdict: Verdict) -> bool
    ensures { result ≡ is_verdict wanted verdict }
{
    wanted == verdict
}
