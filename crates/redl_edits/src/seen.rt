//! What is seen of what an author did, while going back from the last span.

ghost use Rattle.std.specs.Prelude.{◌≡◌};
ghost use Rattle.redl_edits.specs.Inside.Reaches.{seen_with};

use redl_spans::Span;

/// How far it reaches.
#[derive(Clone, Copy)]
pub(crate) struct Seen {
    /// The first unit that one of the author's spans holds.
    pub(crate) low: usize,
    /// How many units come before the first one after the last span that was looked at.
    pub(crate) at: usize,
    /// The next unit from there on that keeps the author's changes apart.
    pub(crate) apart: usize,
}

impl Seen {
    /// With one span more, behind which this is the first unit that isn't blank.
    pub(crate) fn with(self, span: Span, dark: usize) -> Seen
        ensures { result ≡ seen_with self span dark }
    {
        let is_nearer = dark < self.low && dark < self.at;
        Seen {
            low: self.low.min(span.from),
            at: span.to,
            apart: if is_nearer { dark } else { self.apart },
        }
    }
}
