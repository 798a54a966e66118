//! What is round the nodes of a list.

ghost use Rattle.std.specs.Prelude.{◌≡◌, ◌||◌, if◌then◌else◌};
ghost use Rattle.redl_hidden.specs.Runs.{paragraph_hides};
ghost use Rattle.redl_tree.specs.Model.View.{kids_of, tag_of};
ghost use Rattle.redl_tree.specs.Roles.Names.{is, is_math, named_math};

use redl_hidden::HiddenStyles;
use redl_tree::{Elem, Space, Word, is_named, is_quiet, is_word};

/// What is round the nodes of a list.
#[derive(Clone, Copy)]
pub(crate) struct PageSummary {
    /// No ancestor holds properties.
    pub loud: bool,
    /// The parent is a text.
    pub shows: bool,
    /// The paragraph that they are in hides its runs.
    pub hides: bool,
}

impl PageSummary {
    ghost use Rattle.redl_page_stories.specs.Document.{in_story, inside};
    ghost use Rattle.redl_page_stories.specs.Inside.Idle.{idle_place};

    /// The place of the kids of a story's root.
    pub(crate) fn in_story() -> PageSummary
        ensures { result ≡ in_story }
    {
        PageSummary {
            loud: true,
            shows: false,
            hides: false,
        }
    }

    /// The place of the kids of an element that has this place.
    pub(crate) fn inside(self, hidden: &HiddenStyles<'_>, elem: &Elem) -> PageSummary
        ensures { result ≡ inside hidden.now (tag_of elem.now) (kids_of elem.now) self }
    {
        PageSummary {
            loud: self.loud && !is_quiet(elem),
            shows: self.loud && is_text(elem),
            hides: self.hides_in(hidden, elem),
        }
    }

    fn hides_in(self, hidden: &HiddenStyles<'_>, elem: &Elem) -> bool
        ensures { result ≡ (if is "p" (tag_of elem.now) then paragraph_hides hidden.now (kids_of elem.now) else self.hides) }
    {
        if is_word(elem, Word::P) {
            return hidden.paragraph_hides(elem);
        }
        self.hides
    }

    /// The place of the kids of an idle element with this local name that has this place.
    pub(crate) fn inside_idle(self, local: &[u8]) -> PageSummary
        ensures { result ≡ idle_place self local.now }
    {
        PageSummary {
            loud: self.loud && local != b"rPr".as_slice(),
            shows: self.loud && local == b"t".as_slice(),
            hides: self.hides,
        }
    }
}

// Whether an element is a text, a deleted one or one of an equation too.
fn is_text(elem: &Elem) -> bool
    ensures { result ≡ (is "t" (tag_of elem.now) || is "delText" (tag_of elem.now) || is_math "t" (tag_of elem.now)) }
{
    is_named(elem, b"t") || is_word(elem, Word::DelText) || is_in_math(elem, b"t")
}

/// Whether an element of mathematics has this local name.
pub(crate) fn is_in_math(elem: &Elem, name: &[u8]) -> bool
    ensures { result ≡ named_math name.now (tag_of elem.now) }
{
    elem.space() == Space::M && elem.local() == name
}
