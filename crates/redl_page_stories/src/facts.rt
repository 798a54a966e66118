//! What a page takes of a package besides the nodes of a story.

use redl_hidden::HiddenStyles;
use redl_index::Index;
use redl_places::NoteSigns;

/// What a page takes of a package besides the nodes of a story.
#[derive(Clone, Copy)]
pub struct StoryFacts<'a, 's> {
    /// The revisions.
    pub index: &'a Index,
    /// The signs of the notes.
    pub signs: &'a NoteSigns,
    /// What the styles hide.
    pub hidden: &'a HiddenStyles<'s>,
}
