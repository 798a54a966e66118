//! What the ancestors of an element are to the rules, beside their summary.

ghost use Rattle.std.specs.Prelude.{◌≡◌, ◌&&◌, ◌||◌, not, [], if◌then◌else◌};
ghost use Rattle.redl_tree.specs.Model.View.{tag_of, kids_of};
ghost use Rattle.redl_tree.specs.Roles.Kinds.{is_change};
ghost use Rattle.redl_tree.specs.Roles.Lists.{is_block_list};
ghost use Rattle.redl_tree.specs.Roles.Names.{is};
ghost use Rattle.redl_visit.specs.Summaries.{ancestors_inside};
ghost use Rattle.redl_visit.specs.Visits.{inner_of};
ghost use Rattle.redl_rules.specs.Rounds.{round_of, round_inside, round_below};

use redl_tree::{Elem, Kind, Place, Word, is_word, trace_of};
use redl_visit::Ancestors;

/// What the ancestors of an element are to the rules, in its story, beside their summary.
#[derive(Clone, Copy)]
pub struct Round {
    /// The nearest ancestor is a content revision.
    pub in_content: bool,
    /// Some ancestor is a content revision, with no text box between.
    pub below_content: bool,
    /// The element stands in a block list, directly or through content revisions.
    pub among_blocks: bool,
    /// Some ancestor is a change of properties.
    pub below_change: bool,
}

impl Round {
    /// Of a story's root, which has no ancestors.
    pub fn top() -> Round
        ensures { result ≡ round_of [] }
    {
        Round {
            in_content: false,
            below_content: false,
            among_blocks: false,
            below_change: false,
        }
    }

    /// The round of the kids of an element with this role. Where no element is among them, nothing asks for it, and the
    /// element's own will do.
    #[tactic(auto, using(redl_visit::proofs::VisitLaws::some_inner, redl_visit::proofs::VisitLaws::has_inner, redl_visit::proofs::VisitLaws::no_inner))]
    pub fn below(self, elem: &Elem, kind: Kind, here: &Ancestors, inner: Option<Ancestors>) -> Round
        requires { inner ≡ inner_of ancestors_inside (tag_of elem.now) (kids_of elem.now) here.now }
        ensures { result ≡ round_below (tag_of elem.now) (kids_of elem.now) kind (ancestors_inside (tag_of elem.now) here.now) self }
    {
        match inner {
            Some(inner) => self.inside(elem, kind, &inner),
            None => self,
        }
    }

    /// The round of the kids of an element with this role, whose ancestors are summed up by `inner`.
    pub fn inside(self, elem: &Elem, kind: Kind, inner: &Ancestors) -> Round
        ensures { result ≡ round_inside (tag_of elem.now) kind inner.now self }
    {
        let in_content = trace_of(elem).is_some();
        Round {
            in_content,
            below_content: self.is_below_content(elem, in_content),
            among_blocks: self.is_among_blocks(inner.place, in_content),
            below_change: self.is_below_change(kind),
        }
    }

    fn is_below_content(self, elem: &Elem, in_content: bool) -> bool
        ensures { result ≡ (not (is "txbxContent" (tag_of elem.now)) && (in_content || self.below_content)) }
    {
        (self.below_content || in_content) && !is_word(elem, Word::TxbxContent)
    }

    fn is_among_blocks(self, inner: Place, in_content: bool) -> bool
        ensures { result ≡ (if in_content then self.among_blocks else is_block_list inner) }
    {
        if in_content {
            self.among_blocks
        } else {
            inner.is_block_list()
        }
    }

    fn is_below_change(self, kind: Kind) -> bool
        ensures { result ≡ (is_change kind || self.below_change) }
    {
        self.below_change || kind.is_change()
    }
}
