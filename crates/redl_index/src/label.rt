//! The walk that labels the stories of a package: each element below a root gets its kind and the number of its revision.

ghost use Rattle.std.specs.Prelude.{◌≡◌, ◌+◌, ◌^◌, ◌<◌, IfOk, IsTrue, None, OnErr, OnOk, map};
ghost use Rattle.redl_tree.specs.Model.Count.{count};
ghost use Rattle.redl_tree.specs.Model.Text.{text};
ghost use Rattle.redl_tree.specs.Model.View.{tag_of, kids_of};
ghost use Rattle.redl_tree.specs.Decisions.Packages.{is_story_root, stories};
ghost use Rattle.redl_tree.specs.Revisions.Numbers.{labelled_story, next_after_story};
ghost use Rattle.redl_opc.specs.Shape.{refusal};
ghost use Rattle.redl_stamp.specs.Attribute.{attribute_value};
ghost use Rattle.redl_index.specs.StoryFacts.{facts_of, facts_in, element_by};
ghost use Rattle.redl_index.specs.Numbers.{numbered_package, package_revisions};
ghost use Rattle.redl_index.specs.Numbered.{IsNumberedFrom};

use crate::numbers::Numbers;
use crate::story::Sight;
use crate::story_facts::{StoryFacts, known_stories};
use crate::walk::Walk;
use redl_moves::Moves;
use redl_opc::Package;
use redl_tree::{Around, Elem, Plain, StoryChange};
use redl_visit::{Label, Labeller, label_kids};
use std::alloc::{AllocError, Global};
use std::convert::Infallible;
use std::mem;

/// Numbers the revisions of a package as `Index::build` does, and only counts them.
///
/// It reads no author and no date. All else in the package stays. `Err` means out of memory, and then the package is as before.
pub fn number(alloc: Global, pkg: &mut Package) -> Result<u32, AllocError>
    ensures count { IfOk result (λ count. count ≡ package_revisions pkg.old) }
    ensures nodes { OnOk result (pkg.new ≡ numbered_package pkg.old) }
    ensures ready { OnOk result (IsNumberedFrom pkg.old pkg.new) }
    ensures text { OnOk result (text pkg.new ≡ text pkg.old) }
    ensures unchanged { OnErr result (pkg.new ≡ pkg.old) }
{
    let known = known_stories(alloc, pkg)?;
    Ok(label_stories(pkg, known))
}

/// Labels the stories of a package, given `known`, one for each story, and gives how many revisions there are. It takes no memory.
pub(crate) fn label_stories(pkg: &mut Package, known: Vec<StoryFacts>) -> u32
    requires known { map facts_of known.items ≡ map facts_in (stories pkg.old) }
    requires shape { refusal pkg.old ≡ None }
    requires few { count pkg.old < 2 ^ 32 }
    ensures count { result ≡ package_revisions pkg.old }
    ensures nodes { pkg.new ≡ numbered_package pkg.old }
    ensures ready { IsNumberedFrom pkg.old pkg.new }
    ensures text { text pkg.new ≡ text pkg.old }
{
    let mut left = ToLabel {
        stories: known,
        place: 0,
        next: 1,
    };
    pkg.change_labels(&Labelling, &mut left);
    left.next - 1
}

/// What is left to label.
#[derive(Drop)]
pub(crate) struct ToLabel<'a> {
    /// What is known of the stories.
    pub(crate) stories: Vec<StoryFacts<'a>>,
    /// The place of the next story to be labelled.
    pub(crate) place: usize,
    /// The next number.
    pub(crate) next: u32,
}

// Each story gets the labels of its elements. Numbers go on from story to story.
#[derive(Clone, Copy)]
struct Labelling;

impl StoryChange<ToLabel<'_>> for Labelling {
    type Error = Infallible;

    ghost use Rattle.std.specs.Prelude.{false};
    ghost use Rattle.redl_index.specs.ToLabel.{Left, left_of, left_rule, IsNext};

    ghost Given = { Left };

    ghost given = { λ _ left. left_of left };

    ghost rule = { left_rule };

    ghost Takes = { IsNext };

    ghost is_counted = { false };

    ghost steps = { λ _. 0 };

    fn meet(&self, _left: &mut ToLabel<'_>, _nodes: u32) {}

    fn change(&self, root: &mut Elem, left: &mut ToLabel<'_>) -> Result<(), Infallible> {
        let place = left.place;
        let next = label_story(&mut left.stories[place], root, left.next);
        left.next = next;
        left.place = place + 1;
        Ok(())
    }
}

// Labels a story, given what is known of it, and gives the next number after it.
fn label_story(known: &mut StoryFacts<'_>, root: &mut Elem, next: u32) -> u32
    requires known { facts_of known.old ≡ facts_in (element_by (tag_of root.old) (kids_of root.old)) }
    requires root { IsTrue (is_story_root (tag_of root.old)) }
    requires begun { 0 < next }
    requires few { next + count (kids_of root.old) < 2 ^ 32 }
    ensures tag { tag_of root.new ≡ tag_of root.old }
    ensures kids { kids_of root.new ≡ labelled_story attribute_value next (tag_of root.old) (kids_of root.old) }
    ensures next { result ≡ next_after_story attribute_value next (tag_of root.old) (kids_of root.old) }
{
    let none = Vec::new(*known.numbers.moves.allocator());
    let moves = mem::replace(&mut known.numbers.moves, none);
    let mut numberer = Numberer {
        moves: &known.moves,
        walk: Walk::begin(&known.ends),
        numbers: Numbers { next, moves },
    };
    label_kids(root, Around::top().inside(root), 0, &mut numberer);
    numberer.numbers.next
}

/// Gives the elements of a story their kinds and numbers. What is handed down is where the nearest paragraph ends.
#[derive(Drop)]
pub(crate) struct Numberer<'s> {
    /// The moves of the story.
    pub(crate) moves: &'s Moves,
    /// How far the walk is.
    pub(crate) walk: Walk<'s>,
    /// The numbers that its moves have so far, and the next one.
    pub(crate) numbers: Numbers,
}

impl<'s> Labeller for Numberer<'s> {
    type Own = u64;

    ghost use Rattle.redl_index.specs.Inside.Numberers.{NumbererState, numberer_state, numberer_rule, numberer_needs};
    ghost use Rattle.redl_index.specs.Inside.IdleSights.{leaves-idle};

    ghost State = { NumbererState };

    ghost state = { numberer_state };

    ghost rule = { numberer_rule };

    ghost needs = { numberer_needs };

    ghost leaves = { leaves-idle };

    #[inline(always)]
    fn enter(
        &mut self,
        elem: &Elem,
        here: Around,
        _inner: &Option<Around>,
        para_end: u64,
    ) -> (u64, Label) {
        let sight = Sight::of(self.moves, elem, here, para_end, self.walk.at);
        let rev = self.numbers.number(sight);
        let below = self.walk.enter(elem, para_end);
        (
            below,
            Label {
                kind: sight.kind,
                rev,
            },
        )
    }

    #[inline(always)]
    fn leave(&mut self) {
        self.walk.leave();
    }

    #[inline(always)]
    fn pass(&mut self, plain: &Plain, _here: Around, _para_end: u64) {
        self.walk.pass(plain.elems());
    }
}
