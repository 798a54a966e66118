//! What is found in the stories of a package.

ghost use Rattle.std.specs.Prelude.{◌≡◌, ◌+◌, ◌^◌, ◌<◌, ◌++◌, ◌∷◌, [], None, length, All, IfSome, IsTrue, OnOk};
ghost use Rattle.std.specs.Str.{IsUtf8};
ghost use Rattle.redl_tree.specs.Model.View.{tag_of};
ghost use Rattle.redl_kinds.specs.Kinds.{is_named};
ghost use Rattle.redl_index.specs.Kinds.{kind_of};
ghost use Rattle.redl_index.specs.Mentions.{mention_as, move_mention};
ghost use Rattle.redl_index.specs.Revisions.{revision_with};
ghost use Rattle.redl_index.specs.Inside.Seeking.{added};
ghost use Rattle.redl_index.specs.Inside.Stories.{tails_in};
ghost use Rattle.redl_index.specs.Inside.Tallies.{tally_of, move_number, mentioned, mentioned_by};

use crate::index::Index;
use crate::revision::{Revision, kind_of};
use crate::story::{Sight, Story};
use indexmap::IndexMap;
use redl_kinds::RevKind;
use redl_moves::Start;
use redl_tree::{Elem, Kind};
use std::alloc::{AllocError, Global};

/// What is found in the stories so far.
#[derive(Drop)]
pub(crate) struct Found {
    /// The allocator of the lists.
    pub(crate) alloc: Global,
    /// The revisions.
    pub(crate) index: Index,
    /// The numbers of the moves of the present story, by the positions of their source starts.
    pub(crate) moves: IndexMap<u64, u32>,
}

impl Found {
    /// Nothing is found yet. It takes no memory.
    pub(crate) fn nothing(alloc: Global) -> Found
        ensures { result.index ≡ [] }
    {
        Found {
            alloc,
            index: Index::empty(alloc),
            moves: IndexMap::new(alloc),
        }
    }

    /// Forgets the moves of the story before. It takes no memory.
    pub(crate) fn begin_story(&mut self)
        ensures index { self.new.index ≡ self.old.index }
        ensures moves { self.new.moves.entries ≡ [] }
    {
        self.moves = IndexMap::new(self.alloc);
    }

    /// Adds an element of a story to its revision, of which it may be the first element. `Err` means out of memory.
    pub(crate) fn add(
        &mut self,
        story: &Story<'_, '_>,
        elem: &Elem,
        sight: Sight,
    ) -> Result<(), AllocError>
        requires few { length self.old.index + 1 < 2 ^ 32 }
        requires tail { IsUtf8 ((tag_of elem.now).tail) }
        requires tails { All IsUtf8 (tails_in story.now) }
        requires named { IfSome (kind_of sight.kind) (λ named. IsTrue (is_named named)) }
        ensures { OnOk result (tally_of self.new ≡ added story.now.part (tails_in story.now) (tag_of elem.now).tail sight (tally_of self.old)) }
    {
        match kind_of(sight.kind) {
            Some(named) => self.mention(story, elem, named, sight),
            None => Ok(()),
        }
    }

    // Adds an element to its revision, where it is in one.
    fn mention(
        &mut self,
        story: &Story<'_, '_>,
        elem: &Elem,
        named: RevKind,
        sight: Sight,
    ) -> Result<(), AllocError>
        requires few { length self.old.index + 1 < 2 ^ 32 }
        requires tail { IsUtf8 ((tag_of elem.now).tail) }
        requires tails { All IsUtf8 (tails_in story.now) }
        requires named { IsTrue (is_named named) }
        ensures { OnOk result (tally_of self.new ≡ mentioned_by story.now.part (tally_of self.old) (mention_as (tails_in story.now) (tag_of elem.now).tail sight.kind named sight.start)) }
    {
        match sight.start {
            Some(start) => self.mention_move(story, start, sight.kind != Kind::Marker),
            None => self.first(story.part, named, elem.tail(), 1),
        }
    }

    // Adds a mention of a move, by a member of it or by a marker.
    fn mention_move(
        &mut self,
        story: &Story<'_, '_>,
        start: Start,
        counts: bool,
    ) -> Result<(), AllocError>
        requires few { length self.old.index + 1 < 2 ^ 32 }
        requires tails { All IsUtf8 (tails_in story.now) }
        ensures { OnOk result (tally_of self.new ≡ mentioned_by story.now.part (tally_of self.old) (move_mention (tails_in story.now) start counts)) }
    {
        match self.known_number(start.at) {
            Some(number) => {
                self.index.mention(number, counts);
                Ok(())
            }
            None => self.first_of_move(story, start, counts),
        }
    }

    // The number that the move has whose source starts at this position, if it has one yet.
    fn known_number(&self, start: u64) -> Option<u32>
        ensures { result ≡ move_number self.now.moves.entries start }
    {
        match self.moves.get(&start) {
            Some(number) => Some(*number),
            None => None,
        }
    }

    // Adds a move that is mentioned for the first time.
    fn first_of_move(
        &mut self,
        story: &Story<'_, '_>,
        start: Start,
        counts: bool,
    ) -> Result<(), AllocError>
        requires few { length self.old.index + 1 < 2 ^ 32 }
        requires tails { All IsUtf8 (tails_in story.now) }
        ensures { OnOk result (tally_of self.new ≡ mentioned story.now.part (tally_of self.old) (move_mention (tails_in story.now) start counts) None) }
    {
        let number = self.index.count() + 1;
        let tail = story.tail(start.place);
        self.first(story.part, RevKind::Move, tail, u32::from(counts))?;
        self.moves.insert(start.at, number)?;
        Ok(())
    }

    // Adds a revision that is mentioned for the first time, and has these attributes and so many members so far.
    fn first(
        &mut self,
        part: u32,
        kind: RevKind,
        tail: &[u8],
        members: u32,
    ) -> Result<(), AllocError>
        requires few { length self.old.index + 1 < 2 ^ 32 }
        requires named { IsTrue (is_named kind) }
        requires tail { IsUtf8 tail.now }
        ensures index { OnOk result (self.new.index ≡ self.old.index ++ revision_with part kind tail.now members (1 + length self.old.index) ∷ []) }
        ensures moves { OnOk result (self.new.moves.entries ≡ self.old.moves.entries) }
    {
        let number = self.index.count() + 1;
        let revision = Revision::read(self.alloc, kind, part, number, tail, members)?;
        self.index.add(revision)
    }
}
