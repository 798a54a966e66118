//! One mark: what was done, by whom and when.

ghost use Rattle.std.specs.Prelude.{◌≡◌, ⊤};
ghost use Rattle.redl_marks.specs.Marks.{mark_order, same_mark};
ghost use Rattle.redl_marks.specs.Views.{mark_view};

use crate::sign::Sign;
use std::cmp::Ordering;

/// Who made a change, and the minute when, as they are written.
#[derive(Clone, Copy)]
pub struct Stamp<'a> {
    /// The author.
    pub author: &'a [u8],
    /// `YYYY-MM-DDThh:mm`.
    pub minute: &'a [u8],
}

/// What was done, by whom and when.
#[derive(Clone, Copy)]
pub struct Mark<'a> {
    /// What was done.
    pub sign: Sign,
    /// By whom and when.
    pub stamp: Stamp<'a>,
}

impl Default for Mark<'_> {
    ghost is_default = { λ _. ⊤ };

    fn default() -> Self {
        Mark {
            sign: Sign::Inserted,
            stamp: Stamp {
                author: b"",
                minute: b"",
            },
        }
    }
}

impl Mark<'_> {
    /// How it stands to another one in the order of marks.
    pub(crate) fn order(self, other: Mark<'_>) -> Ordering
        ensures { result ≡ mark_order (mark_view self.entry) (mark_view other.entry) }
    {
        let authors = self.stamp.author.cmp(other.stamp.author);
        let minutes = self.stamp.minute.cmp(other.stamp.minute);
        self.sign
            .place()
            .cmp(&other.sign.place())
            .then(authors.then(minutes))
    }

    /// Whether both are the same.
    pub(crate) fn same(self, other: Mark<'_>) -> bool
        ensures { result ≡ same_mark (mark_view self.entry) (mark_view other.entry) }
    {
        self.sign.place() == other.sign.place()
            && self.stamp.author == other.stamp.author
            && self.stamp.minute == other.stamp.minute
    }
}
