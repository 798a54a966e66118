//! Where nodes are, for what they show.

ghost use Rattle.std.specs.Prelude.{◌≡◌, ◌∷◌, []};
ghost use Rattle.redl_tree.specs.Model.View.{tag_of};
ghost use Rattle.redl_tree.specs.Roles.Names.{is_any};
ghost use Rattle.redl_bare.specs.Units.{is_left_out, is_text, is_open_place, open_inside, place_inside};
ghost use Rattle.redl_bare.specs.Inside.Idle.{open_idle, idle_inside};

use redl_stamp::has_attribute;
use redl_tree::{Elem, Space, Word, is_named, is_quiet, is_word};

/// Where nodes are in their story.
#[derive(Clone, Copy, Debug, PartialEq, Eq)]
pub enum BarePlace {
    /// Anywhere but in one of the others.
    Open,
    /// In a text, whose bytes are shown.
    InText,
    /// In a run.
    InRun,
    /// In a field that is one element.
    InField,
    /// In properties, where only members of revisions are shown.
    Quiet,
    /// Where nothing is shown.
    Silent,
}

impl BarePlace {
    /// Whether texts and lines are shown here.
    pub(crate) fn is_open(self) -> bool
        ensures { result ≡ is_open_place self }
    {
        match self {
            BarePlace::Silent | BarePlace::Quiet => false,
            BarePlace::InRun | BarePlace::InText | BarePlace::InField | BarePlace::Open => true,
        }
    }

    /// The place of what an element here holds.
    pub(crate) fn inside(self, elem: &Elem) -> BarePlace
        ensures { result ≡ place_inside self (tag_of elem.now) }
    {
        match self {
            BarePlace::Silent => BarePlace::Silent,
            BarePlace::Quiet => BarePlace::Quiet,
            BarePlace::InRun if is_word(elem, Word::RPr) => BarePlace::Silent,
            BarePlace::InRun | BarePlace::InText | BarePlace::InField | BarePlace::Open =>
                open_inside(elem),
        }
    }

    /// The place of what an idle element with this local name holds.
    pub(crate) fn inside_idle(self, local: &[u8]) -> BarePlace
        ensures { result ≡ idle_inside self local.now }
    {
        match self {
            BarePlace::Silent => BarePlace::Silent,
            BarePlace::Quiet => BarePlace::Quiet,
            BarePlace::InRun if local == b"rPr".as_slice() => BarePlace::Silent,
            BarePlace::InRun | BarePlace::InText | BarePlace::InField | BarePlace::Open =>
                open_inside_idle(local),
        }
    }
}

fn open_inside_idle(local: &[u8]) -> BarePlace
    ensures { result ≡ open_idle local.now }
{
    if local == b"rPr".as_slice() {
        BarePlace::Quiet
    } else if local == b"t".as_slice() || local == b"instrText".as_slice() {
        BarePlace::InText
    } else if local == b"r".as_slice() {
        BarePlace::InRun
    } else if local == b"fldSimple".as_slice() {
        BarePlace::InField
    } else {
        BarePlace::Open
    }
}

fn open_inside(elem: &Elem) -> BarePlace
    ensures { result ≡ open_inside (tag_of elem.now) }
{
    if is_left_out(elem) {
        BarePlace::Silent
    } else if is_quiet(elem) {
        BarePlace::Quiet
    } else if is_text(elem) {
        BarePlace::InText
    } else if is_word(elem, Word::R) {
        BarePlace::InRun
    } else if is_named(elem, b"fldSimple") {
        BarePlace::InField
    } else {
        BarePlace::Open
    }
}

/// Whether an element is the second form of content that is kept twice, or a separator of notes.
pub(crate) fn is_left_out(elem: &Elem) -> bool
    ensures { result ≡ is_left_out (tag_of elem.now) }
{
    (elem.space() == Space::Other && elem.local() == b"Fallback".as_slice())
        || (is_note(elem) && has_attribute(elem.tail(), b"type"))
}

fn is_note(elem: &Elem) -> bool
    ensures { result ≡ is_any ("footnote" ∷ "endnote" ∷ []) (tag_of elem.now) }
{
    is_word(elem, Word::Footnote) || is_word(elem, Word::Endnote)
}

fn is_text(elem: &Elem) -> bool
    ensures { result ≡ is_text (tag_of elem.now) }
{
    is_named(elem, b"t")
        || is_word(elem, Word::DelText)
        || is_named(elem, b"instrText")
        || is_word(elem, Word::DelInstrText)
}
