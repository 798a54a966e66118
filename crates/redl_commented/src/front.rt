//! Comments that begin before a place.

ghost use Rattle.std.specs.Prelude.{◌≡◌, ◌≤◌, ◌<◌, ◌∷◌, ◌++◌, [], IfOk, OnOk, drop, filter, get_or, length, take};
ghost use Rattle.redl_commented.specs.Inside.Fronts.{BeginBy, IsFront};
ghost use Rattle.redl_commented.specs.On.{ends_after, ranked_in, start_of};
ghost use Rattle.redl_commented.specs.Orders.{Above, Rises};

use crate::range::Ranged;
use crate::remarks::MOST;
use std::alloc::{AllocError, Global};

/// Those that begin before a place.
#[derive(Drop)]
pub(crate) struct Front {
    /// How many they are.
    pub(crate) next: usize,
    /// Those that end last, the last first: at most 20.
    pub(crate) top: Vec<Ranged>,
}

impl Front {
    /// Those that begin before this place, where these are all comments in the order of their begin. `Err` means out of memory, here and
    /// below.
    pub(crate) fn advance(&mut self, all: &[Ranged], to: usize) -> Result<(), AllocError>
        requires rises { Rises start_of all.now }
        requires front { IsFront all.now self.old }
        requires begin { BeginBy to (take self.old.next all.now) }
        ensures front { OnOk result (IsFront all.now self.new) }
        ensures begin { OnOk result (BeginBy to (take self.new.next all.now)) }
        ensures above { OnOk result (Above start_of to (drop self.new.next all.now)) }
    {
        while self.next < all.len() {
            let ranged = ranged_at(all, self.next);
            if to <= ranged.range.from {
                return Ok(());
            }
            self.rank(ranged)?;
            self.next += 1;
        }
        Ok(())
    }

    // One more, of which it keeps those that end last.
    fn rank(&mut self, ranged: Ranged) -> Result<(), AllocError>
        ensures top { OnOk result (self.new.top.items ≡ take 20 (ranked_in ranged self.old.top.items)) }
        ensures next { self.new.next ≡ self.old.next }
    {
        let place = place_among(&self.top, ranged);
        self.top.insert(place, ranged)?;
        self.top.truncate(MOST);
        Ok(())
    }

    /// Those of the kept ones that end after a place.
    pub(crate) fn ending_after(&self, alloc: Global, from: usize) -> Result<Vec<Ranged>, AllocError>
        ensures { IfOk result (λ found. found.items ≡ filter (ends_after from) self.now.top.items) }
    {
        let mut found = Vec::new(alloc);
        for ranged in &self.top {
            add_if_after(*ranged, from, &mut found)?;
        }
        Ok(found)
    }
}

fn add_if_after(ranged: Ranged, from: usize, found: &mut Vec<Ranged>) -> Result<(), AllocError>
    ensures { OnOk result (found.new.items ≡ found.old.items ++ filter (ends_after from) (ranged ∷ [])) }
{
    if from < ranged.range.to {
        found.push(ranged)?;
    }
    Ok(())
}

fn ranged_at(all: &[Ranged], at: usize) -> Ranged
    requires { at < length all.now }
    ensures { result ≡ get_or all.now at result }
{
    all[at]
}

// Where one is ranked in.
fn place_among(top: &[Ranged], ranged: Ranged) -> usize
    ensures within { result ≤ length top.now }
    ensures place { ranked_in ranged top.now ≡ take result top.now ++ ranged ∷ drop result top.now }
{
    for place in 0..top.len() {
        if top[place].range.to < ranged.range.to {
            return place;
        }
    }
    top.len()
}
