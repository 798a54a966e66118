//! The decision on a revision.

/// What the reviewers' words on a revision come to.
#[derive(Clone, Copy, Debug, PartialEq, Eq)]
pub enum Verdict {
    /// No word counts.
    Undecided,
    /// All words that count accept it.
    Accept,
    /// All words that count reject it.
    Reject,
    /// Some words accept it, and some reject it.
    Disputed,
}
