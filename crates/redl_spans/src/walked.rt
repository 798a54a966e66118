//! What a walk over a story knows.

ghost use Rattle.std.specs.Prelude.{◌≡◌, ◌+◌, IfOk, OnOk};
ghost use Rattle.redl_spans.specs.Stories.{nothing_walked, story_begun};
ghost use Rattle.redl_spans.specs.Units.{text_steps};
ghost use Rattle.redl_spans.specs.Walks.{parted, passed, stepped};

use crate::length::{shown_length, sum};
use crate::place::{CommentPlace, Position};
use crate::span::Span;
use std::alloc::{AllocError, Global};
use std::marker::Model;

/// Where it is, how many units came before its story, and what it found.
#[derive(Drop)]
pub struct Walk {
    // The allocator of the lists.
    pub(crate) alloc: Global,
    pub(crate) here: Position,
    pub(crate) story: usize,
    pub(crate) places: Vec<CommentPlace>,
    pub(crate) spans: Vec<Span>,
}

impl Model for Walk {
    ghost use Rattle.redl_spans.specs.Walks.{Walk as Walked};

    ghost Value = { Walked };

    ghost view = { λ w. record { here = w.here; story = w.story; places = w.places.items; spans = w.spans.items } };
}

impl Walk {
    /// Nothing is passed.
    pub(crate) fn new(alloc: Global) -> Walk
        ensures { result ≡ nothing_walked }
    {
        Walk {
            alloc,
            here: Position {
                count: 0,
                near: false,
            },
            story: 0,
            places: Vec::new(alloc),
            spans: Vec::new(alloc),
        }
    }

    /// The places of comments, in the order of the text.
    pub fn places(&self) -> &[CommentPlace]
        ensures { result.now ≡ self.now.places }
    {
        &self.places
    }

    /// What members hold, in the order in which they end.
    pub fn spans(&self) -> &[Span]
        ensures { result.now ≡ self.now.spans }
    {
        &self.spans
    }

    /// A story begins. `Err` means out of memory, here and below.
    pub(crate) fn begin_story(&mut self) -> Result<(), AllocError>
        ensures { OnOk result (self.new ≡ story_begun self.old) }
    {
        self.here = parted(self.here)?;
        self.story = self.here.count;
        Ok(())
    }

    /// Bytes, which are text or not.
    pub(crate) fn pass_bytes(&mut self, bytes: &[u8], in_text: bool) -> Result<(), AllocError>
        ensures { OnOk result (self.new ≡ stepped (text_steps in_text bytes.now) self.old) }
    {
        if in_text {
            self.here = passed(self.here, shown_length(bytes)?)?;
        }
        Ok(())
    }
}

/// Behind so many units more.
pub(crate) fn passed(here: Position, count: usize) -> Result<Position, AllocError>
    ensures { IfOk result (λ behind. behind ≡ passed count here) }
{
    if count == 0 {
        return Ok(here);
    }
    Ok(Position {
        count: sum(here.count, count)?,
        near: true,
    })
}

/// Behind a mark of a paragraph or an edge.
pub(crate) fn parted(here: Position) -> Result<Position, AllocError>
    ensures { IfOk result (λ behind. behind ≡ parted here) }
{
    Ok(Position {
        count: sum(here.count, 1)?,
        near: false,
    })
}
