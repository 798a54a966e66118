//! A row of a listing: what is listed of one revision.

ghost use Rattle.std.specs.Prelude.{◌≡◌, ◌<◌, length, All, IfOk};
ghost use Rattle.std.specs.Str.{IsUtf8};
ghost use Rattle.redl_index.specs.Revisions.{IsListable};
ghost use Rattle.redl_listing.specs.Rows.{IsRow, told_row};
ghost use Rattle.redl_excerpts.specs.Details.{IsDetail};

use redl_excerpts::Detail;
use redl_formats::Item;
use redl_index::Revision;
use redl_io::Text;
use redl_join::Verdict;
use redl_kinds::RevKind;
use std::alloc::{AllocError, Global};

/// What a listing says of a revision.
#[derive(Drop)]
pub struct Row {
    /// The revision's number, from 1 on.
    pub number: u32,
    /// What the revision is.
    pub kind: RevKind,
    /// What the reviewers decided on it.
    pub verdict: Verdict,
    /// Who made it.
    pub author: Text,
    /// When, in seconds from 1970-01-01T00:00:00Z, if that is known.
    pub seconds: Option<i64>,
    /// The name of the part that it is in.
    pub part: Text,
    /// How many members it has.
    pub members: u32,
    /// Its text and the last words on it, where the listing was told of them.
    pub detail: Detail,
}

impl Row {
    /// The row of a revision on which this was decided, in the part that its number names, with this detail. `Err` means out of memory.
    pub(crate) fn of(
        alloc: Global,
        revision: &Revision,
        verdict: Verdict,
        parts: &[Text],
        detail: Detail,
    ) -> Result<Row, AllocError>
        requires part { revision.now.part < length parts.now }
        requires parts { All IsUtf8 parts.now }
        requires told { IsListable revision.now }
        requires detail { IsDetail detail }
        ensures value { IfOk result (λ row. row ≡ told_row parts.now revision.now verdict detail) }
        ensures row { IfOk result IsRow }
    {
        let author = revision.author.copy(alloc)?;
        let part = parts[revision.part as usize].copy(alloc)?;
        Ok(Row {
            number: revision.number,
            kind: revision.kind,
            verdict,
            author,
            seconds: revision.seconds,
            part,
            members: revision.members,
            detail,
        })
    }
}

impl Item for Row {
    ghost use Rattle.redl_listing.specs.Rows.{IsRow};

    ghost is_item = { IsRow };

    fn copy(&self, alloc: Global) -> Result<Row, AllocError> {
        let author = self.author.copy(alloc)?;
        let part = self.part.copy(alloc)?;
        let detail = self.detail.copy(alloc)?;
        Ok(Row {
            number: self.number,
            kind: self.kind,
            verdict: self.verdict,
            author,
            seconds: self.seconds,
            part,
            members: self.members,
            detail,
        })
    }
}
