//! A law of every journal and its text.
ghost use Rattle.std.specs.Prelude.{◌≡◌, ℕ, List};
ghost use Rattle.redl_journal.specs.Journals.{Journal, IsJournal};

/// A text has at most one journal.
pub fn one_journal()
    ensures { (bytes : List ℕ) (i j : Journal) → IsJournal bytes i → IsJournal bytes j → i ≡ j }
{}
