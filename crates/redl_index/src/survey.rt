//! A package before it is numbered, with what one look at its stories gives.

ghost use Rattle.std.specs.Prelude.{◌≡◌, ◌^◌, ◌<◌, [], All, length, map, None, IfOk};
ghost use Rattle.redl_tree.specs.Decisions.Packages.{stories};
ghost use Rattle.redl_tree.specs.Model.Count.{count};
ghost use Rattle.redl_tree.specs.Model.Text.{text};
ghost use Rattle.redl_tree.specs.Model.View.{tag_of, kids_of};
ghost use Rattle.redl_opc.specs.Shape.{refusal};
ghost use Rattle.redl_rules.specs.Attributes.{broken_rule as broken_rule_of};
ghost use Rattle.redl_rules.specs.Keeping.{element_kept, kept_among};
ghost use Rattle.redl_index.specs.StoryFacts.{facts_of, facts_in, element_by};
ghost use Rattle.redl_index.specs.Numbers.{numbered_package, package_revisions};
ghost use Rattle.redl_index.specs.Numbered.{IsNumberedFrom};
ghost use Rattle.redl_index.specs.Revisions.{IsInStory, revisions_of};

use crate::index::Index;
use crate::label::label_stories;
use crate::markers::{Below, Finder};
use crate::story_facts::StoryFacts;
use redl_opc::Package;
use redl_rules::{Keeper, Kept};
use redl_tree::Elem;
use redl_visit::{Ancestors, Both, visit_kids};
use std::alloc::{AllocError, Global};
use std::marker::Model;

/// A package with what its numbers rest on: which rule of structure it breaks, and what is known of its stories. A contract sees
/// its nodes.
#[derive(Drop)]
pub struct Surveyed<'a> {
    pkg: Package<'a>,
    broken: Option<u8>,
    stories: Vec<StoryFacts<'a>>,
}

impl<'a> Model for Surveyed<'a> {
    ghost use Rattle.std.specs.Coded.{codes};
    ghost use Rattle.redl_tree.specs.Model.Nodes.{Nodes};
    ghost use Rattle.redl_opc.specs.Code.{nodes_code};

    ghost Value = { Nodes };

    ghost coded = { nodes_code (Prim.hlevel codes) };

    ghost use Rattle.std.specs.Prelude.{map};
    ghost use Rattle.redl_index.specs.StoryFacts.{facts_of, IsSurvey};

    ghost view = { λ surveyed. surveyed.pkg };

    ghost invariant = { λ surveyed. IsSurvey surveyed.pkg surveyed.broken (map facts_of surveyed.stories.items) };
}

/// A package with the kinds and numbers of its revisions, and the revisions.
#[derive(Drop)]
pub struct Numbered<'a> {
    /// The package.
    pub pkg: Package<'a>,
    /// Its revisions.
    pub index: Index,
}

/// A package with the kinds and numbers of its revisions, and how many it has.
#[derive(Drop)]
pub struct Counted<'a> {
    /// The package.
    pub pkg: Package<'a>,
    /// How many revisions it has.
    pub count: u32,
}

impl<'a> Surveyed<'a> {
    /// Looks at the stories of a package. `Err` means out of memory, and drops it.
    pub fn of(alloc: Global, pkg: Package<'a>) -> Result<Surveyed<'a>, AllocError>
        ensures { IfOk result (λ surveyed. surveyed ≡ pkg.entry) }
    {
        let (kept, stories) = survey_stories(alloc, &pkg)?;
        Ok(Surveyed {
            pkg,
            broken: kept.least_broken(),
            stories,
        })
    }

    /// The package, as it was before.
    pub fn package(&self) -> &Package<'a>
        ensures { result.now ≡ self.now }
    {
        &self.pkg
    }

    /// The least of the nine rules of structure that the package breaks, where they count from 1.
    pub fn broken_rule(&self) -> Option<u8>
        ensures { result ≡ broken_rule_of self.now }
    {
        self.broken
    }

    /// Numbers the revisions as `Index::build` does, and only counts them. It takes no memory, and reads no author and no date.
    pub fn into_counted(self) -> Counted<'a>
        ensures nodes { result.pkg ≡ numbered_package self.entry }
        ensures ready { IsNumberedFrom self.entry result.pkg }
        ensures count { result.count ≡ package_revisions self.entry }
        ensures text { text result.pkg ≡ text self.entry }
    {
        let mut pkg = self.pkg;
        let count = label_stories(&mut pkg, self.stories);
        Counted { pkg, count }
    }

    /// Numbers the revisions as `Index::build` does. `Err` means out of memory, and drops the package.
    pub fn into_numbered(self, alloc: Global) -> Result<Numbered<'a>, AllocError>
        ensures nodes { IfOk result (λ made. made.pkg ≡ numbered_package self.entry) }
        ensures ready { IfOk result (λ made. IsNumberedFrom self.entry made.pkg) }
        ensures index { IfOk result (λ made. made.index ≡ revisions_of self.entry) }
        ensures count { IfOk result (λ made. length made.index ≡ package_revisions self.entry) }
        ensures stories { IfOk result (λ made. All (IsInStory made.pkg) made.index) }
        ensures text { IfOk result (λ made. text made.pkg ≡ text self.entry) }
    {
        let mut pkg = self.pkg;
        let index = Index::of_known(alloc, &mut pkg, self.stories)?;
        Ok(Numbered { pkg, index })
    }
}

// Which rules hold in all stories of a package, and what is known of each of them, in their order. `Err` means out of memory.
fn survey_stories<'a>(
    alloc: Global,
    pkg: &Package<'a>,
) -> Result<(Kept, Vec<StoryFacts<'a>>), AllocError>
    ensures rules { IfOk result (λ seen. seen.0 ≡ kept_among (stories pkg.now)) }
    ensures known { IfOk result (λ seen. map facts_of seen.1.items ≡ map facts_in (stories pkg.now)) }
    ensures shape { IfOk result (λ seen. refusal pkg.now ≡ None) }
    ensures few { IfOk result (λ seen. count pkg.now < 2 ^ 32) }
{
    let mut kept = Kept::all();
    let mut known = Vec::new(alloc);
    for part in 0..pkg.parts() {
        let Some(root) = pkg.story(part) else {
            continue;
        };
        let (rules, story) = survey_story(alloc, root)?;
        kept = kept.and(rules);
        known.push(story)?;
    }
    Ok((kept, known))
}

// Which rules hold in the story with this root, and what is known of it, by one walk. `Err` means out of memory.
fn survey_story<'a>(alloc: Global, root: &Elem<'a>) -> Result<(Kept, StoryFacts<'a>), AllocError>
    requires few { count (kids_of root.now) < 2 ^ 32 }
    ensures rules { IfOk result (λ seen. seen.0 ≡ element_kept [] (tag_of root.now) (kids_of root.now)) }
    ensures known { IfOk result (λ seen. facts_of seen.1 ≡ facts_in (element_by (tag_of root.now) (kids_of root.now))) }
{
    let inner = Ancestors::none().inside(root);
    let (keeper, round) = Keeper::<AllocError>::at_root(root);
    let below = Below::of_root(root);
    let mut both = Both {
        first: keeper,
        second: Finder::new(alloc),
    };
    visit_kids(root, &inner, &(round, below), &mut both)?;
    let known = StoryFacts::of_markers(alloc, both.second.found)?;
    Ok((both.first.kept, known))
}
