//! What a call says beside its output.

ghost use Rattle.std.specs.Prelude.{◌≡◌};
ghost use Rattle.redl_lines.specs.Refused.{is_empty as has_none};
ghost use Rattle.redl_lines.specs.Remarks.{all_refused, no_remarks, remarks_view};

use crate::note::Note;
use crate::refused::RefusedEntries;
use redl_kinds::Lock;
use std::alloc::Global;

/// What a call says beside its output.
#[derive(Drop)]
pub struct Remarks {
    /// The entries that it refused, with their causes.
    pub refused: RefusedEntries,
    /// The same of a second package, where there is one.
    pub second: RefusedEntries,
    /// The locks that hold no revision of the package, in the order of the words.
    pub idle: Vec<Lock>,
    /// What there is to tell of the document.
    pub notes: Vec<Note>,
}

impl Remarks {
    /// No remarks.
    pub fn none(alloc: Global) -> Remarks
        ensures { remarks_view result ≡ no_remarks }
    {
        Remarks {
            refused: RefusedEntries::new(alloc),
            second: RefusedEntries::new(alloc),
            idle: Vec::new(alloc),
            notes: Vec::new(alloc),
        }
    }

    /// Whether no entry was refused.
    #[tactic(auto, using(crate::proofs::RefusedLaws::both_empty))]
    pub fn are_none_refused(&self) -> bool
        ensures { result ≡ has_none (all_refused (remarks_view self.now)) }
    {
        self.refused.is_empty() && self.second.is_empty()
    }
}
