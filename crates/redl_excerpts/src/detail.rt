//! What a listing shows of a revision beside its row.

ghost use Rattle.std.specs.Prelude.{◌≡◌, ◌+◌, ◌^◌, ◌<◌, All, IfOk, IfSome, length, map};
ghost use Rattle.std.specs.Map.Iter.{deref};
ghost use Rattle.std.specs.Str.{IsUtf8};
ghost use Rattle.redl_join.specs.LastWords.{words_on};
ghost use Rattle.redl_places.specs.Views.{place_at};
ghost use Rattle.redl_excerpts.specs.Details.{IsDetail, detail_if, detail_of, details_of, no_detail, with_clause, with_edit, with_hidden, with_remarks};
ghost use Rattle.redl_excerpts.specs.Remarks.{IsRemark};

use crate::Excerpt;
use crate::checked::{kept, kept_if_any};
use crate::last_word::Says;
use crate::remark::{Remarks, copy_if_any};
use redl_changed::ChangedSaid;
use redl_io::Text;
use redl_join::LastWords;
use redl_journal::Entry;
use redl_places::{Places, StoryPlace};
use std::alloc::{AllocError, Global};

/// The text of a revision and the last words on it.
#[derive(Drop)]
pub struct Detail {
    /// The words of the revision, at most 200 characters, and three dots where there are more.
    pub words: Text,
    /// What stands before them in the same paragraph, at most 40 characters.
    pub before: Text,
    /// What comes after them in the same paragraph, at most 40 characters.
    pub after: Text,
    /// The own id of the revision's first element, where it has one.
    pub id: Option<Text>,
    /// The properties that the revision changes.
    pub changed: ChangedSaid,
    /// The clause that the revision is in, where that is known and there is one.
    pub clause: Option<Text>,
    /// The number of the edit that the revision belongs to, and 0 where that isn't known.
    pub edit: u32,
    /// Whether it is known to hide text or to show it, to hold hidden text, or to stand in some.
    pub hidden: bool,
    /// Where its first member is.
    pub place: StoryPlace,
    /// Who said what.
    pub says: Says,
    /// The comments on the revision.
    pub remarks: Remarks,
}

impl Detail {
    /// No detail. `Err` means out of memory.
    pub fn none(alloc: Global) -> Result<Detail, AllocError>
        ensures { IfOk result (λ detail. detail ≡ no_detail) }
    {
        Ok(Detail {
            words: Text::copy_of(alloc, b"")?,
            before: Text::copy_of(alloc, b"")?,
            after: Text::copy_of(alloc, b"")?,
            id: None,
            changed: ChangedSaid::none(alloc)?,
            clause: None,
            edit: 0,
            hidden: false,
            place: StoryPlace::Document,
            says: Says::none(alloc),
            remarks: Remarks::none(alloc),
        })
    }

    // The detail of a revision with this excerpt and at this place, where these are the last words on it. `Err` means out of memory.
    fn of(
        alloc: Global,
        excerpt: Excerpt,
        place: StoryPlace,
        entries: &[&Entry],
    ) -> Result<Detail, AllocError>
        ensures value { IfOk result (λ detail. detail ≡ detail_of excerpt place (map deref entries.now)) }
        ensures utf8 { IfOk result IsDetail }
    {
        let Excerpt {
            words,
            id,
            before,
            behind,
            changed,
            ..
        } = excerpt;
        let words = kept(alloc, words.into_text(alloc)?)?;
        let before = kept(alloc, before)?;
        let after = kept(alloc, behind)?;
        let id = kept_if_any(alloc, id)?;
        let says = Says::of(alloc, entries)?;
        Ok(Detail {
            words,
            before,
            after,
            id,
            changed,
            clause: None,
            edit: 0,
            hidden: false,
            place,
            says,
            remarks: Remarks::none(alloc),
        })
    }

    /// The same with this clause.
    pub fn with_clause(self, clause: Option<Text>) -> Detail
        requires detail { IsDetail self }
        requires clause { IfSome clause IsUtf8 }
        ensures value { result ≡ with_clause self clause }
        ensures utf8 { IsDetail result }
    {
        Detail { clause, ..self }
    }

    /// The same with this edit.
    pub fn with_edit(self, edit: u32) -> Detail
        requires { IsDetail self }
        ensures value { result ≡ with_edit self edit }
        ensures utf8 { IsDetail result }
    {
        Detail { edit, ..self }
    }

    /// The same where it is hidden or not.
    pub fn with_hidden(self, hidden: bool) -> Detail
        requires { IsDetail self }
        ensures value { result ≡ with_hidden self hidden }
        ensures utf8 { IsDetail result }
    {
        Detail { hidden, ..self }
    }

    /// The same with these comments.
    pub fn with_remarks(self, remarks: Remarks) -> Detail
        requires detail { IsDetail self }
        requires remarks { All IsRemark remarks.first }
        ensures value { result ≡ with_remarks self remarks }
        ensures utf8 { IsDetail result }
    {
        Detail { remarks, ..self }
    }

    /// An equal detail. `Err` means out of memory.
    pub fn copy(&self, alloc: Global) -> Result<Detail, AllocError>
        ensures { IfOk result (λ copy. copy ≡ self.now) }
    {
        let words = self.words.copy(alloc)?;
        let before = self.before.copy(alloc)?;
        let after = self.after.copy(alloc)?;
        let id = copy_if_any(alloc, &self.id)?;
        let changed = self.changed.copy(alloc)?;
        let clause = copy_if_any(alloc, &self.clause)?;
        let says = self.says.copy(alloc)?;
        let remarks = self.remarks.copy(alloc)?;
        Ok(Detail {
            words,
            before,
            after,
            id,
            changed,
            clause,
            edit: self.edit,
            hidden: self.hidden,
            place: self.place,
            says,
            remarks,
        })
    }
}

// The detail of a revision at this place with this excerpt, if there is one. `Err` means out of memory.
fn detail_if(
    alloc: Global,
    excerpt: Option<Excerpt>,
    place: StoryPlace,
    entries: &[&Entry],
) -> Result<Detail, AllocError>
    ensures value { IfOk result (λ detail. detail ≡ detail_if excerpt place (map deref entries.now)) }
    ensures utf8 { IfOk result IsDetail }
{
    match excerpt {
        Some(excerpt) => Detail::of(alloc, excerpt, place, entries),
        None => Detail::none(alloc),
    }
}

/// The details of the revisions of a package, which have these excerpts in the order of their numbers and are at these places, where
/// these are the last words on them. A revision without an excerpt has none. `Err` means out of memory.
pub fn details(
    alloc: Global,
    excerpts: Vec<Option<Excerpt>>,
    places: &Places,
    words: &LastWords<'_>,
) -> Result<Vec<Detail>, AllocError>
    requires { length excerpts.items < 2 ^ 32 }
    ensures value { IfOk result (λ details. details.items ≡ details_of excerpts.items (place_at places.now) (words_on words.now)) }
    ensures utf8 { IfOk result (λ details. All IsDetail details.items) }
{
    let mut details = Vec::new(alloc);
    for excerpt in excerpts {
        let number = details.len() as u32 + 1;
        let detail = detail_if(alloc, excerpt, places.on(number), words.on(number))?;
        details.push(detail)?;
    }
    Ok(details)
}
