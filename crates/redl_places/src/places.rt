//! The places of the revisions of a package.

ghost use Rattle.std.specs.Prelude.{◌≡◌, ◌==◌, ◌++◌, ◌-◌, ◌<◌, ℕ, IfOk, OnOk, get_or, length, if◌then◌else◌};
ghost use Rattle.std.specs.List.{flat_map};
ghost use Rattle.redl_tree.specs.Decisions.Packages.{stories};
ghost use Rattle.redl_opc.specs.Elements.{element_of};
ghost use Rattle.redl_opc.specs.Stories.{stories_of_part};
ghost use Rattle.redl_places.specs.Places.{place_among, place_on, story_places};
ghost use Rattle.redl_places.specs.Views.{place_at, signs_of};

use crate::place::{MemberPlace, StoryPlace};
use crate::sign::NoteSigns;
use crate::walk::{add_nodes, place_in};
use redl_opc::Package;
use redl_tree::Elem;
use std::alloc::{AllocError, Global};
use std::collections::BTreeMap;

/// The places of the revisions of a package.
#[derive(Drop)]
pub struct Places {
    // Those of revisions that are not in the document, by their numbers.
    pub(crate) by_number: BTreeMap<u32, StoryPlace>,
}

impl Places {
    /// The places of a numbered package. `Err` means out of memory, here and below.
    pub fn of(alloc: Global, pkg: &Package) -> Result<Places, AllocError>
        ensures { IfOk result (λ places. (v : ℕ) → place_at places v ≡ place_on pkg.now v) }
    {
        let signs = NoteSigns::of(alloc, pkg)?;
        let mut members = Vec::new(alloc);
        for part in 0..pkg.parts() {
            add_part(pkg, part, &signs, &mut members)?;
        }
        Places::among(alloc, &members)
    }

    // The place of the first member of each revision.
    fn among(alloc: Global, members: &[MemberPlace]) -> Result<Places, AllocError>
        ensures { IfOk result (λ places. (v : ℕ) → place_at places v ≡ place_among v members.now) }
    {
        let mut places = Places {
            by_number: BTreeMap::new(alloc),
        };
        for after in 0..members.len() {
            let member = from_end(members, after);
            places.set(member.revision, member.place)?;
        }
        Ok(places)
    }

    // Sets the place of a revision.
    fn set(&mut self, revision: u32, place: StoryPlace) -> Result<(), AllocError>
        ensures { OnOk result ((v : ℕ) → place_at self.new v ≡ (if revision == v then place else place_at self.old v)) }
    {
        if place.is_document() {
            self.by_number.remove(&revision);
            return Ok(());
        }
        self.by_number.insert(revision, place)?;
        Ok(())
    }

    /// The place of the revision with this number.
    pub fn on(&self, number: u32) -> StoryPlace
        ensures { result ≡ place_at self.now number }
    {
        match self.by_number.get(&number) {
            Some(place) => *place,
            None => StoryPlace::Document,
        }
    }
}

// The last member but so many.
fn from_end(members: &[MemberPlace], after: usize) -> MemberPlace
    requires { after < length members.now }
    ensures { result ≡ get_or members.now (length members.now - 1 - after) result }
{
    members[members.len() - 1 - after]
}

// Adds the members of one part.
fn add_part(
    pkg: &Package,
    part: u32,
    signs: &NoteSigns,
    members: &mut Vec<MemberPlace>,
) -> Result<(), AllocError>
    ensures { OnOk result (members.new.items ≡ members.old.items ++ flat_map (story_places (signs_of signs.now)) (stories_of_part pkg.now part)) }
{
    match pkg.story(part) {
        Some(root) => add_root(root, signs, members),
        None => Ok(()),
    }
}

fn add_root(
    root: &Elem,
    signs: &NoteSigns,
    members: &mut Vec<MemberPlace>,
) -> Result<(), AllocError>
    ensures { OnOk result (members.new.items ≡ members.old.items ++ story_places (signs_of signs.now) (element_of root.now)) }
{
    add_nodes(
        root.kids(),
        signs,
        place_in(root, signs, StoryPlace::Document),
        members,
    )
}
