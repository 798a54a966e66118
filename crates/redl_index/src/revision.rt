//! A revision: its number, what it is, who made it and when, and which kinds of elements are its members.

ghost use Rattle.std.specs.Prelude.{◌≡◌, IfOk, IsTrue};
ghost use Rattle.std.specs.Str.{IsUtf8};
ghost use Rattle.redl_kinds.specs.Kinds.{is_named};
ghost use Rattle.redl_index.specs.Kinds.{kind_of};
ghost use Rattle.redl_index.specs.Revisions.{IsListable, revision_with};
ghost use Rattle.redl_index.specs.Inside.Tallies.{with_one_more};

use redl_io::Text;
use redl_kinds::RevKind;
use redl_stamp::read_stamp;
use redl_tree::Kind;
use std::alloc::{AllocError, Global};

/// A revision.
#[derive(Drop)]
pub struct Revision {
    /// Its number, from 1 on.
    pub number: u32,
    /// What it is.
    pub kind: RevKind,
    /// Who made it; the empty text where no author is named.
    pub author: Text,
    /// When, in seconds from 1970-01-01T00:00:00Z, where its date can be read.
    pub seconds: Option<i64>,
    /// The number of its part, from 0 on.
    pub part: u32,
    /// How many members it has.
    pub members: u32,
}

impl Revision {
    /// The revision that has these attributes, with so many members. `Err` means out of memory.
    pub(crate) fn read(
        alloc: Global,
        kind: RevKind,
        part: u32,
        number: u32,
        tail: &[u8],
        members: u32,
    ) -> Result<Revision, AllocError>
        requires named { IsTrue (is_named kind) }
        requires tail { IsUtf8 tail.now }
        ensures value { IfOk result (λ revision. revision ≡ revision_with part kind tail.now members number) }
        ensures told { IfOk result IsListable }
    {
        let stamp = read_stamp(alloc, tail)?;
        Ok(Revision {
            number,
            kind,
            author: stamp.author,
            seconds: stamp.seconds,
            part,
            members,
        })
    }

    /// Counts a member more. Its count stays at the greatest number of 32 bits, which a package is too small to reach.
    pub(crate) fn count_member(&mut self)
        ensures { self.new ≡ with_one_more self.old }
    {
        if self.members < u32::MAX {
            self.members += 1;
        }
    }
}

/// What the revision is that an element of this kind is a member of. `None` where it is a member of none.
pub(crate) fn kind_of(kind: Kind) -> Option<RevKind>
    ensures { result ≡ kind_of kind }
{
    match kind {
        Kind::Plain => None,
        Kind::Content(trace) => Some(RevKind::Content(trace)),
        Kind::Mark(trace) => Some(RevKind::Mark(trace)),
        Kind::Row(trace) => Some(RevKind::Row(trace)),
        Kind::Cell(trace) => Some(RevKind::Cell(trace)),
        Kind::Change(prop) => Some(RevKind::Change(prop)),
        Kind::Marker => Some(RevKind::Move),
    }
}
