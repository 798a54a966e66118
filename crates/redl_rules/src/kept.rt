//! Which of the rules of structure hold, and which is the least that does not.

ghost use Rattle.std.specs.Prelude.{◌≡◌, ◌<◌, IfSome, length, not, position};
ghost use Rattle.redl_rules.specs.Keeping.{all_kept, in_both, least_broken};

// How many rules of structure there are.
const RULES: usize = 9;

/// Which of the rules hold, in their order.
#[derive(Clone, Copy)]
pub struct Kept {
    /// Whether each of them holds.
    pub rules: [bool; RULES],
}

impl Kept {
    /// All of them.
    pub fn all() -> Kept
        ensures { result ≡ all_kept }
    {
        Kept {
            rules: [true; RULES],
        }
    }

    /// The rules that hold in both.
    pub fn and(self, other: Kept) -> Kept
        ensures { result ≡ in_both self other }
    {
        let mut rules = self.rules;
        for i in 0..rules.len() {
            rules[i] &= other.rules[i];
        }
        Kept { rules }
    }

    /// The least rule that doesn't hold, where they count from 1.
    pub fn least_broken(self) -> Option<u8>
        ensures { result ≡ least_broken self }
    {
        let place = first_false(&self.rules)?;
        Some(place as u8 + 1)
    }
}

// The place of the first answer that is `false`.
fn first_false(answers: &[bool]) -> Option<usize>
    ensures value { result ≡ position not answers.now }
    ensures within { IfSome result (λ place. place < length answers.now) }
{
    answers.iter().position(|answer| !*answer)
}
