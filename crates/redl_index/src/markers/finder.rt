//! The visitor that finds the markers of a story, and the ends of its paragraphs.

ghost use Rattle.std.specs.Prelude.{◌≡◌};
ghost use Rattle.redl_index.specs.Inside.Markers.Finding.{finding_of, nothing_found};

use crate::markers::StoryMarkers;
use crate::markers::ends::{mend_end, note_end};
use crate::markers::trail::Below;
use crate::walk::behind;
use redl_tree::{Elem, Plain};
use redl_visit::{Ancestors, Visitor};
use std::alloc::{AllocError, Global};

/// Finds the markers of a story and the ends of its paragraphs, where it visits the kids of the root. It stops where memory runs
/// out.
#[derive(Drop)]
pub(crate) struct Finder<'a> {
    alloc: Global,
    // The position of the next tag.
    at: u64,
    /// What is found so far.
    pub(crate) found: StoryMarkers<'a>,
}

impl<'a> Finder<'a> {
    /// A finder for one story. It has found nothing, and the next tag is the one after the root's start tag.
    pub(crate) fn new(alloc: Global) -> Finder<'a>
        ensures { finding_of result ≡ nothing_found }
    {
        Finder {
            alloc,
            at: 1,
            found: StoryMarkers {
                marks: Vec::new(alloc),
                tails: Vec::new(alloc),
                ends: Vec::new(alloc),
            },
        }
    }
}

impl<'a> Visitor<Elem<'a>, Ancestors> for Finder<'a> {
    type Error = AllocError;

    type Own = Below;

    ghost use Rattle.redl_index.specs.Inside.Markers.Finding.{Finding, finder_rule, finder_needs};
    ghost use Rattle.redl_visit.specs.Stops.{any_stops};

    ghost State = { Finding };

    ghost state = { finding_of };

    ghost rule = { finder_rule };

    ghost needs = { finder_needs };

    ghost stops = { any_stops };

    #[inline(always)]
    #[tactic(auto, using(redl_visit::proofs::VisitLaws::is_inner))]
    fn enter(
        &mut self,
        elem: &Elem<'a>,
        here: &Ancestors,
        inner: &Option<Ancestors>,
        own: &Below,
    ) -> Result<Below, AllocError> {
        let place = self.found.ends.len();
        self.found
            .add_marker(self.alloc, elem, here, own.trail, self.at)?;
        note_end(&mut self.found.ends, elem, self.at)?;
        self.at += 1;
        Ok(Below {
            trail: own.trail.below(elem, here, inner.is_some()),
            place,
        })
    }

    #[inline(always)]
    fn leave(
        &mut self,
        elem: &Elem<'a>,
        _here: &Ancestors,
        below: &Below,
    ) -> Result<(), AllocError> {
        mend_end(&mut self.found.ends, elem, below.place, self.at);
        self.at += 1;
        Ok(())
    }

    #[inline(always)]
    fn pass(&mut self, plain: &Plain<'a>, _here: &Ancestors, _own: &Below) {
        self.at = behind(self.at, plain.elems());
    }
}
