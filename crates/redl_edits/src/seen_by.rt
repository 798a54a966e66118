//! What is seen of what each author did, while going back from the last span.

ghost use Rattle.std.specs.Prelude.{◌≡◌, ℕ, List, bytes_eq, if◌then◌else◌, IfOk, OnOk};
ghost use Rattle.redl_edits.specs.Inside.Authors.{seen_of};
ghost use Rattle.redl_edits.specs.Inside.Reaches.{seen_with};

use crate::seen::Seen;
use redl_spans::Span;
use std::alloc::{AllocError, Global};
use std::collections::BTreeMap;

/// What is seen of each author.
#[derive(Drop)]
pub(crate) struct SeenBy<'i> {
    /// Of an author who did nothing so far.
    pub(crate) none: Seen,
    /// Of the others.
    pub(crate) by_author: BTreeMap<&'i [u8], Seen>,
}

impl<'i> SeenBy<'i> {
    /// Of each author the same.
    pub(crate) fn all(alloc: Global, none: Seen) -> SeenBy<'i>
        ensures { (author : List ℕ) → seen_of result author ≡ none }
    {
        SeenBy {
            none,
            by_author: BTreeMap::new(alloc),
        }
    }

    // That of an author.
    fn of(&self, author: &[u8]) -> Seen
        ensures { result ≡ seen_of self.now author.now }
    {
        match self.by_author.get(author) {
            Some(seen) => *seen,
            None => self.none,
        }
    }

    /// Sees one span more of an author, behind which this is the first unit that isn't blank. `Err` means out of memory.
    pub(crate) fn see(
        &mut self,
        author: &'i [u8],
        span: Span,
        dark: usize,
    ) -> Result<Seen, AllocError>
        ensures own { IfOk result (λ seen. seen ≡ seen_with (seen_of self.old author.now) span dark) }
        ensures after { OnOk result ((other : List ℕ) → seen_of self.new other ≡ (if bytes_eq author.now other then seen_with (seen_of self.old author.now) span dark else seen_of self.old other)) }
    {
        let seen = self.of(author).with(span, dark);
        self.by_author.insert(author, seen)?;
        Ok(seen)
    }
}
