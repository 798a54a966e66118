//! What idle elements show that a list keeps as text.

ghost use Rattle.redl_io.specs.Sink.{Puts};
ghost use Rattle.redl_tree.specs.Model.IdleTexts.{idle_nodes};
ghost use Rattle.redl_shown.specs.Shown.{shown};
ghost use Rattle.redl_places.specs.Views.{signs_of};
ghost use Rattle.redl_page_stories.specs.Document.{nodes_pieces};
ghost use Rattle.redl_page_stories.specs.Inside.Idle.{idle_start};
ghost use Rattle.redl_page_stories.specs.Views.{facts_of};
ghost use Rattle.redl_html.specs.Pieces.{pieces_text};

use crate::behind::put_behind_alone;
use crate::facts::StoryFacts;
use crate::place::PageSummary;
use crate::shape::Shape;
use crate::shown::put_bytes;
use redl_idle::{Shows, show};
use redl_io::{Failed, Sink, put_piece};
use redl_places::NoteSigns;
use redl_tree::Plain;

/// What is round some idle nodes.
#[derive(Clone, Copy)]
pub(crate) struct Within<'w, 'a, 's> {
    /// What the page takes of the package.
    pub facts: &'w StoryFacts<'a, 's>,
    /// Where they stand.
    pub place: PageSummary,
    /// What their parent is shown as.
    pub shape: Shape,
}

impl<K: Sink> Shows<K> for Within<'_, '_, '_> {
    ghost use Rattle.redl_idle.specs.Takings.{by_puts};
    ghost use Rattle.redl_page_stories.specs.Inside.Idle.{page_rule};

    type Error = Failed;

    ghost rule = { page_rule };

    ghost taking = { by_puts K.told K.faults K.settled K.lenders };

    fn put_bytes(&self, bytes: &[u8], out: &mut K) -> Result<(), Failed> {
        put_bytes(self.place, bytes, out)
    }

    fn enter(&self, local: &[u8], tail: &[u8], ahead: &[u8], out: &mut K) -> Result<Self, Failed> {
        let shape = Shape::of_idle(self.facts.hidden, self.place, local, ahead);
        put_idle_start(self.facts.signs, shape, tail, out)?;
        Ok(Within {
            facts: self.facts,
            place: self.place.inside_idle(local),
            shape,
        })
    }

    fn leave(&self, out: &mut K) -> Result<(), Failed> {
        put_piece(self.shape.closing(), out)
    }
}

/// Puts what idle elements show that have this place. It takes no memory.
pub(crate) fn put_idle<K: Sink>(
    facts: &StoryFacts<'_, '_>,
    place: PageSummary,
    plain: &Plain<'_>,
    out: &mut K,
) -> Result<(), Failed>
    ensures { Puts K.told K.faults K.settled K.lenders out.old out.new (pieces_text (nodes_pieces shown (facts_of facts.now) place (idle_nodes plain.now))) result }
{
    let within = Within {
        facts,
        place,
        shape: Shape::Nothing,
    };
    show(plain, &within, out)
}

// Puts what comes before the kids of an idle element with this shape and tail.
fn put_idle_start<K: Sink>(
    signs: &NoteSigns,
    shape: Shape,
    tail: &[u8],
    out: &mut K,
) -> Result<(), Failed>
    ensures { Puts K.told K.faults K.settled K.lenders out.old out.new (pieces_text (idle_start (signs_of signs.now) shape tail.now)) result }
{
    put_piece(shape.opening(), out)?;
    put_behind_alone(signs, shape, tail, out)
}
