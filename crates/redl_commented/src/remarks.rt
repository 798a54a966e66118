//! The comments on one revision.

ghost use Rattle.std.specs.Prelude.{◌≡◌, ◌∷◌, ◌++◌, [], OnOk, max, take, if◌then◌else◌};
ghost use Rattle.redl_commented.specs.On.{count_of, has_comment, joined, no_remarks};

use crate::range::Ranged;
use std::alloc::{AllocError, Global};
use std::marker::Model;

/// How many comments of a revision are kept.
pub(crate) const MOST: usize = 20;

/// The comments on a revision.
#[derive(Drop)]
pub struct Remarks {
    // Their places in their part, from 0: at most 20.
    kept: Vec<usize>,
    // How many are on the member on which most are.
    most: usize,
}

impl Model for Remarks {
    ghost use Rattle.redl_commented.specs.On.{Remarks as Said};

    ghost Value = { Said };

    ghost view = { λ remarks. record { kept = remarks.kept.items; most = remarks.most } };
}

impl Remarks {
    /// None.
    pub(crate) fn none(alloc: Global) -> Remarks
        ensures { result ≡ no_remarks }
    {
        Remarks {
            kept: Vec::new(alloc),
            most: 0,
        }
    }

    /// The comments, by their places in their part from 0: at most 20.
    pub fn kept(&self) -> &[usize]
        ensures { result.now ≡ self.now.kept }
    {
        &self.kept
    }

    /// How many comments there are.
    pub fn count(&self) -> usize
        ensures { result ≡ count_of self.now }
    {
        self.kept.len().max(self.most)
    }

    /// With those on a member more, of which so many are on it. `Err` means out of memory, here and below.
    pub(crate) fn add(&mut self, more: &[Ranged], number: usize) -> Result<(), AllocError>
        ensures { OnOk result (self.new ≡ record { kept = joined self.old.kept more.now; most = max self.old.most number }) }
    {
        join(&mut self.kept, more)?;
        self.most = self.most.max(number);
        Ok(())
    }
}

fn join(kept: &mut Vec<usize>, more: &[Ranged]) -> Result<(), AllocError>
    ensures { OnOk result (kept.new.items ≡ joined kept.old.items more.now) }
{
    for ranged in more {
        join_one(kept, ranged.comment)?;
    }
    Ok(())
}

fn join_one(kept: &mut Vec<usize>, comment: usize) -> Result<(), AllocError>
    ensures { OnOk result (kept.new.items ≡ (if has_comment kept.old.items comment then kept.old.items else take 20 (kept.old.items ++ comment ∷ []))) }
{
    if has_comment(kept, comment) {
        return Ok(());
    }
    kept.push(comment)?;
    kept.truncate(MOST);
    Ok(())
}

fn has_comment(kept: &[usize], comment: usize) -> bool
    ensures { result ≡ has_comment kept.now comment }
{
    for other in kept {
        if *other == comment {
            return true;
        }
    }
    false
}
