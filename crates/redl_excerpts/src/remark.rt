//! The comments on a revision, as a listing shows them.

ghost use Rattle.std.specs.Prelude.{◌≡◌, IfOk};
ghost use Rattle.redl_excerpts.specs.Remarks.{no_remarks};

use redl_io::Text;
use std::alloc::{AllocError, Global};
use std::marker::Model;

/// A comment.
#[derive(Drop)]
pub struct Remark {
    /// Who made it; the empty text where no author is named.
    pub author: Text,
    /// When, in seconds from 1970-01-01T00:00:00Z, where its date can be read.
    pub seconds: Option<i64>,
    /// Whether it is done, or replies to one that is.
    pub is_done: bool,
    /// Its id.
    pub id: Text,
    /// The id of the comment that it replies to, if it replies to one.
    pub reply_to: Option<Text>,
    /// What it says, at most 200 characters, and three dots where there are more.
    pub text: Text,
}

/// The comments on a revision: the first ones, and how many there are.
#[derive(Drop)]
pub struct Remarks {
    first: Vec<Remark>,
    count: usize,
}

impl Model for Remarks {
    ghost use Rattle.redl_excerpts.specs.Remarks.{Remarks as Said};

    ghost Value = { Said };

    ghost view = { λ remarks. record { first = remarks.first.items; count = remarks.count } };
}

impl Remark {
    // An equal one. `Err` means out of memory.
    fn copy(&self, alloc: Global) -> Result<Remark, AllocError>
        ensures { IfOk result (λ copy. copy ≡ self.now) }
    {
        let author = self.author.copy(alloc)?;
        let id = self.id.copy(alloc)?;
        let reply_to = copy_if_any(alloc, &self.reply_to)?;
        let text = self.text.copy(alloc)?;
        Ok(Remark {
            author,
            seconds: self.seconds,
            is_done: self.is_done,
            id,
            reply_to,
            text,
        })
    }
}

impl Remarks {
    /// None. It takes no memory.
    pub fn none(alloc: Global) -> Remarks
        ensures { result ≡ no_remarks }
    {
        Remarks {
            first: Vec::new(alloc),
            count: 0,
        }
    }

    /// These are the first ones of so many.
    pub fn new(first: Vec<Remark>, count: usize) -> Remarks
        ensures { result ≡ record { first = first.items; count = count } }
    {
        Remarks { first, count }
    }

    /// The first ones.
    pub fn first(&self) -> &[Remark]
        ensures { result.now ≡ self.now.first }
    {
        &self.first
    }

    /// How many there are.
    pub fn count(&self) -> usize
        ensures { result ≡ self.now.count }
    {
        self.count
    }

    /// An equal list. `Err` means out of memory.
    pub fn copy(&self, alloc: Global) -> Result<Remarks, AllocError>
        ensures { IfOk result (λ copy. copy ≡ self.now) }
    {
        let first = copies(alloc, &self.first)?;
        Ok(Remarks {
            first,
            count: self.count,
        })
    }
}

fn copies(alloc: Global, remarks: &[Remark]) -> Result<Vec<Remark>, AllocError>
    ensures { IfOk result (λ copies. copies.items ≡ remarks.now) }
{
    let mut copies = Vec::new(alloc);
    for remark in remarks {
        let copy = remark.copy(alloc)?;
        copies.push(copy)?;
    }
    Ok(copies)
}

/// An equal text, if there is one. `Err` means out of memory.
pub(crate) fn copy_if_any(alloc: Global, text: &Option<Text>) -> Result<Option<Text>, AllocError>
    ensures { IfOk result (λ copy. copy ≡ text.now) }
{
    match text {
        Some(text) => {
            let copy = text.copy(alloc)?;
            Ok(Some(copy))
        }
        None => Ok(None),
    }
}
