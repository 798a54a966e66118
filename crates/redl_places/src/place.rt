//! Places in the stories of a package.

ghost use Rattle.std.specs.Prelude.{◌≡◌};
ghost use Rattle.redl_places.specs.Places.{is_document};

use crate::sign::NoteSign;

/// Where something is in a package.
#[derive(Clone, Copy)]
pub enum StoryPlace {
    /// In the document.
    Document,
    /// In a header.
    Header,
    /// In a footer.
    Footer,
    /// In a comment.
    Comment,
    /// In a text box, of whatever story.
    TextBox,
    /// In a note at the foot of a page, with its sign if a reference names it.
    Footnote(Option<NoteSign>),
    /// In a note at the end of a section or of the document, with its sign if a reference names it.
    Endnote(Option<NoteSign>),
}

impl StoryPlace {
    /// Whether it is in the document.
    pub fn is_document(self) -> bool
        ensures { result ≡ is_document self }
    {
        matches!(self, StoryPlace::Document)
    }
}

/// Where a member of a revision is.
#[derive(Clone, Copy)]
pub struct MemberPlace {
    /// The number of the revision.
    pub revision: u32,
    /// The place of the member.
    pub place: StoryPlace,
}
