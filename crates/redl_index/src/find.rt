//! The visit of the stories of a package that finds their revisions.

ghost use Rattle.std.specs.Prelude.{◌≡◌, ◌+◌, ◌^◌, ◌<◌, ◌≤◌, ◌++◌, IsTrue, IfOk, length, map};
ghost use Rattle.redl_tree.specs.Model.Count.{count};
ghost use Rattle.redl_tree.specs.Decisions.Packages.{is_story_root, stories};
ghost use Rattle.redl_tree.specs.Model.View.{tag_of, kids_of};
ghost use Rattle.redl_tree.specs.Model.Tree.{HasUtf8Tails};
ghost use Rattle.redl_index.specs.StoryFacts.{facts_of, facts_in, element_by};
ghost use Rattle.redl_index.specs.Revisions.{numbered, story_revisions, revisions_of};
ghost use Rattle.redl_index.specs.Inside.Seeking.{seeking_of, seeking_in};

use crate::found::Found;
use crate::index::Index;
use crate::story::{Sight, Story};
use crate::story_facts::StoryFacts;
use crate::walk::Walk;
use redl_opc::Package;
use redl_tree::{Around, Elem, Plain};
use redl_visit::{Visitor, visit_kids};
use std::alloc::{AllocError, Global};

/// The revisions in the stories of a package, given `known`, one for each story. `Err` means out of memory.
pub(crate) fn find_in_stories(
    alloc: Global,
    pkg: &Package,
    known: &[StoryFacts],
) -> Result<Index, AllocError>
    requires known { map facts_of known.now ≡ map facts_in (stories pkg.now) }
    ensures { IfOk result (λ index. index ≡ revisions_of pkg.now) }
{
    let mut found = Found::nothing(alloc);
    let mut place = 0;
    for part in 0..pkg.parts() {
        let Some(root) = pkg.story(part) else {
            continue;
        };
        let Some(next) = known.get(place) else {
            continue;
        };
        found = find_in_story(next, root, part, found)?;
        place += 1;
    }
    Ok(found.index)
}

// Adds what is in the story with this root. `Err` means out of memory.
fn find_in_story(
    known: &StoryFacts,
    root: &Elem,
    part: u32,
    found: Found,
) -> Result<Found, AllocError>
    requires few { length found.index + count (kids_of root.now) < 2 ^ 32 }
    requires tails { HasUtf8Tails (kids_of root.now) }
    requires root { IsTrue (is_story_root (tag_of root.now)) }
    requires known { facts_of known.now ≡ facts_in (element_by (tag_of root.now) (kids_of root.now)) }
    ensures at_most { IfOk result (λ more. length more.index ≤ length found.index + count (kids_of root.now)) }
    ensures index { IfOk result (λ more. more.index ≡ found.index ++ numbered (1 + length found.index) (story_revisions part (tag_of root.now) (kids_of root.now))) }
{
    let mut seeker = Seeker::begin(known, part, found);
    visit_kids(root, &Around::top().inside(root), &0, &mut seeker)?;
    Ok(seeker.found)
}

// Adds the elements of a story to their revisions. What is handed down is where the nearest paragraph ends.
#[derive(Drop)]
struct Seeker<'s, 'a> {
    story: Story<'s, 'a>,
    walk: Walk<'s>,
    found: Found,
}

impl<'s, 'a> Seeker<'s, 'a> {
    // Before the first element of a story, which is in the part with this number.
    fn begin(known: &'s StoryFacts<'a>, part: u32, found: Found) -> Seeker<'s, 'a>
        ensures { seeking_of result ≡ seeking_in part (facts_of known.now) found.index }
    {
        let mut found = found;
        found.begin_story();
        Seeker {
            story: Story {
                part,
                moves: &known.moves,
                tails: &known.tails,
            },
            walk: Walk::begin(&known.ends),
            found,
        }
    }
}

impl<'e, 's, 'a> Visitor<Elem<'e>, Around> for Seeker<'s, 'a> {
    type Error = AllocError;

    type Own = u64;

    ghost use Rattle.redl_index.specs.Inside.Seeking.{Seeking, seeker_rule, seeker_needs};
    ghost use Rattle.redl_visit.specs.Stops.{any_stops};

    ghost State = { Seeking };

    ghost state = { seeking_of };

    ghost rule = { seeker_rule };

    ghost needs = { seeker_needs };

    ghost stops = { any_stops };

    #[inline(always)]
    fn enter(
        &mut self,
        elem: &Elem<'e>,
        here: &Around,
        _inner: &Option<Around>,
        para_end: &u64,
    ) -> Result<u64, AllocError> {
        let sight = Sight::of(self.story.moves, elem, *here, *para_end, self.walk.at);
        self.found.add(&self.story, elem, sight)?;
        Ok(self.walk.enter(elem, *para_end))
    }

    #[inline(always)]
    fn leave(&mut self, _elem: &Elem<'e>, _here: &Around, _below: &u64) -> Result<(), AllocError> {
        self.walk.leave();
        Ok(())
    }

    #[inline(always)]
    fn pass(&mut self, plain: &Plain<'e>, _here: &Around, _para_end: &u64) {
        self.walk.pass(plain.elems());
    }
}
