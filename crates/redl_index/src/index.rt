//! The index of a package.

ghost use Rattle.std.specs.Prelude.{◌≡◌, ◌+◌, ◌-◌, ◌^◌, ◌<◌, ◌≤◌, ◌↔◌, ◌++◌, ◌∷◌, [], None, Some, All, length, map, slice_get, IfOk, IfSome, IsSome, IsTrue, OnOk, OnErr};
ghost use Rattle.redl_tree.specs.Decisions.Packages.{stories};
ghost use Rattle.redl_tree.specs.Model.Count.{count};
ghost use Rattle.redl_tree.specs.Model.Text.{text};
ghost use Rattle.redl_opc.specs.Shape.{refusal};
ghost use Rattle.redl_index.specs.StoryFacts.{facts_of, facts_in};
ghost use Rattle.redl_index.specs.Numbers.{numbered_package, package_revisions};
ghost use Rattle.redl_index.specs.Numbered.{IsNumberedFrom};
ghost use Rattle.redl_index.specs.Revisions.{AreNumbered, IsInStory, IsListable, revisions_of};
ghost use Rattle.redl_index.specs.Inside.Tallies.{mentioned_again, replaced};

use crate::find::find_in_stories;
use crate::label::label_stories;
use crate::revision::Revision;
use crate::story_facts::{StoryFacts, known_stories};
use redl_opc::Package;
use std::alloc::{AllocError, Global};
use std::marker::Model;

/// The revisions of a package. A contract sees the list of them in the order of their numbers.
#[derive(Drop)]
pub struct Index {
    revisions: Vec<Revision>,
}

impl Model for Index {
    ghost use Rattle.std.specs.Prelude.{List};
    ghost use Rattle.redl_index.specs.declared.revision.Revision.{Revision};
    ghost use Rattle.redl_index.specs.Revisions.{IsIndex};

    ghost Value = { List Revision };

    ghost view = { λ index. index.revisions.items };

    ghost invariant = { λ index. IsIndex index.revisions.items };
}

impl Index {
    /// The index without revisions. It takes no memory.
    pub(crate) fn empty(alloc: Global) -> Index
        ensures { result ≡ [] }
    {
        Index {
            revisions: Vec::new(alloc),
        }
    }

    /// Adds a revision after the others. `Err` means out of memory.
    pub(crate) fn add(&mut self, revision: Revision) -> Result<(), AllocError>
        requires told { IsListable revision }
        requires number { revision.number ≡ length self.old + 1 }
        requires few { length self.old + 1 < 2 ^ 32 }
        ensures { OnOk result (self.new ≡ self.old ++ revision ∷ []) }
    {
        self.revisions.push(revision)?;
        Ok(())
    }

    /// Counts a further mention of the revision with this number, if it counts as a member.
    pub(crate) fn mention(&mut self, number: u32, counts: bool)
        ensures { self.new ≡ mentioned_again counts number self.old }
    {
        if counts && number != 0 {
            count_member(&mut self.revisions, number as usize - 1);
        }
    }

    /// Finds the revisions in a package's stories, numbers them, and sets the kind and the number on each element that is in one.
    ///
    /// A paired move is one revision, with its members and its four markers. Each other member is a revision of its own. Numbers
    /// count from 1 through the stories, in the order of the parts and of the first start tags (ECMA-376 Part 1, 17.13.5; that
    /// moves are paired by names, and the numbers, are our own rules). The part of each revision is a story with a name. All
    /// else in the package stays. `Err` means out of memory, and then the package is as before. It goes three times through each
    /// story.
    pub fn build(alloc: Global, pkg: &mut Package) -> Result<Index, AllocError>
        ensures index { IfOk result (λ index. index ≡ revisions_of pkg.old) }
        ensures count { IfOk result (λ index. length index ≡ package_revisions pkg.old) }
        ensures stories { IfOk result (λ index. All (IsInStory pkg.new) index) }
        ensures nodes { OnOk result (pkg.new ≡ numbered_package pkg.old) }
        ensures ready { OnOk result (IsNumberedFrom pkg.old pkg.new) }
        ensures text { OnOk result (text pkg.new ≡ text pkg.old) }
        ensures unchanged { OnErr result (pkg.new ≡ pkg.old) }
    {
        let known = known_stories(alloc, pkg)?;
        Index::of_known(alloc, pkg, known)
    }

    /// The same, given `known`, one for each story.
    pub(crate) fn of_known(
        alloc: Global,
        pkg: &mut Package,
        known: Vec<StoryFacts>,
    ) -> Result<Index, AllocError>
        requires known { map facts_of known.items ≡ map facts_in (stories pkg.old) }
        requires shape { refusal pkg.old ≡ None }
        requires few { count pkg.old < 2 ^ 32 }
        ensures index { IfOk result (λ index. index ≡ revisions_of pkg.old) }
        ensures count { IfOk result (λ index. length index ≡ package_revisions pkg.old) }
        ensures stories { IfOk result (λ index. All (IsInStory pkg.new) index) }
        ensures nodes { OnOk result (pkg.new ≡ numbered_package pkg.old) }
        ensures ready { OnOk result (IsNumberedFrom pkg.old pkg.new) }
        ensures text { OnOk result (text pkg.new ≡ text pkg.old) }
        ensures unchanged { OnErr result (pkg.new ≡ pkg.old) }
    {
        let index = find_in_stories(alloc, pkg, &known)?;
        label_stories(pkg, known);
        Ok(index)
    }

    /// How many revisions there are.
    pub fn count(&self) -> u32
        ensures { result ≡ length self.now }
    {
        self.revisions.len() as u32
    }

    /// The revisions in the order of their numbers, which count from 1.
    pub fn revisions(&self) -> &[Revision]
        ensures value { result.now ≡ self.now }
        ensures numbers { AreNumbered self.now }
        ensures told { All IsListable self.now }
    {
        &self.revisions
    }

    /// The revision with this number. Numbers count from 1.
    ///
    /// `None` exactly where no revision has the number, as 0. Its kind has a name, its author is UTF-8, and its moment lies in
    /// the years 0000 to 9999.
    pub fn get(&self, number: u32) -> Option<&Revision>
        ensures found { IsSome result ↔ ((0 < number) × (number ≤ length self.now)) }
        ensures value { IfSome result (λ found. slice_get self.now (number - 1) ≡ Some found.now) }
        ensures number { IfSome result (λ found. found.now.number ≡ number) }
        ensures told { IfSome result (λ found. IsListable found.now) }
    {
        let place = number.checked_sub(1)?;
        self.revisions.get(place as usize)
    }
}

// Counts a member more of the revision at a place.
fn count_member(revisions: &mut Vec<Revision>, place: usize)
    ensures { revisions.new.items ≡ replaced revisions.old.items place (slice_get revisions.old.items place) }
{
    if let Some(revision) = revisions.get_mut(place) {
        revision.count_member();
    }
}
