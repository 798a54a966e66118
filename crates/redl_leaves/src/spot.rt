//! Where the kids of a container stand, and which of them are containers.

ghost use Rattle.std.specs.Prelude.{◌≡◌, ◌∷◌, ◌&&◌, ◌||◌, List, []};
ghost use Rattle.redl_leaves.specs.Spots.{spot_of, root_named, opens_at, opens_below, is_shell_at, is_own_at, is_between_at};
ghost use Rattle.redl_tree.specs.Model.Nodes.{Tag};
ghost use Rattle.redl_tree.specs.Model.View.{tag_of};
ghost use Rattle.redl_tree.specs.Roles.Lists.{is_block_list};
ghost use Rattle.redl_tree.specs.Roles.Names.{is};
ghost use Rattle.redl_tree.specs.Leaves.Containers.{is_control};

use redl_tables::{is_cell_list, is_row_list, is_shell};
use redl_tree::{Elem, Reach, Site, Word, is_word, is_wrapper};

/// Which story's root some nodes stand in directly. At most one is true.
#[derive(Clone, Copy)]
pub struct Root {
    /// `document`, of a main document.
    pub document: bool,
    /// `footnotes`.
    pub footnotes: bool,
    /// `endnotes`.
    pub endnotes: bool,
    /// `comments`.
    pub comments: bool,
}

/// Where the kids of a container stand.
#[derive(Clone, Copy)]
pub struct Spot {
    /// Whether some ancestor holds properties, and whether they are blocks, rows or cells.
    pub site: Site,
    /// The root that they stand in directly.
    pub root: Root,
}

impl Spot {
    /// Where the kids of a story's root stand.
    pub fn in_root(root: &Elem) -> Spot
        ensures { result ≡ spot_of (tag_of root.now ∷ []) }
    {
        Spot {
            site: Site::none().inside(root),
            root: Root {
                document: is_word(root, Word::Document),
                footnotes: is_word(root, Word::Footnotes),
                endnotes: is_word(root, Word::Endnotes),
                comments: is_word(root, Word::Comments),
            },
        }
    }

    /// Where the kids of an element stand that stands here.
    pub(crate) fn inside(self, elem: &Elem) -> Spot
        ensures { (parent : Tag) → (above : List Tag) → self ≡ spot_of (parent ∷ above) → result ≡ spot_of (tag_of elem.now ∷ parent ∷ above) }
    {
        Spot {
            site: self.site.inside(elem),
            root: Root {
                document: false,
                footnotes: false,
                endnotes: false,
                comments: false,
            },
        }
    }

    /// Whether they are blocks.
    pub(crate) fn among_blocks(self) -> bool
        ensures { result ≡ is_block_list self.site.place }
    {
        self.site.place.is_block_list()
    }

    /// Whether an element that stands here is a container.
    pub(crate) fn opens(self, elem: &Elem) -> bool
        ensures { result ≡ opens_at self (tag_of elem.now) }
    {
        opens_in_root(self.root, elem)
            || (self.among_blocks() && (is_word(elem, Word::Tbl) || is_wrapper(elem)))
            || (is_row_list(self.site.place) && is_word(elem, Word::Tr))
            || (is_cell_list(self.site.place) && is_word(elem, Word::Tc))
            || self.is_shell(elem)
            || (self.is_in_control() && is_word(elem, Word::SdtContent))
    }

    pub(crate) fn is_shell(self, elem: &Elem) -> bool
        ensures { result ≡ is_shell_at self (tag_of elem.now) }
    {
        is_shell(elem, self.site.place)
    }

    fn is_in_control(self) -> bool
        ensures { result ≡ is_control self.site.place.reach }
    {
        self.site.place.reach == Reach::Control
    }

    /// Whether an element is an own row or cell.
    pub(crate) fn is_own(self, elem: &Elem) -> bool
        ensures { result ≡ is_own_at self (tag_of elem.now) }
    {
        (is_row_list(self.site.place) && is_word(elem, Word::Tr))
            || (is_cell_list(self.site.place) && is_word(elem, Word::Tc))
    }

    /// Whether the own rows or cells in an element are those of the table or row round it.
    pub(crate) fn holds_own_of_ancestor(self, elem: &Elem) -> bool
        ensures { result ≡ is_between_at self (tag_of elem.now) }
    {
        self.is_shell(elem) || (self.is_in_control() && is_word(elem, Word::SdtContent))
    }
}

fn opens_in_root(root: Root, elem: &Elem) -> bool
    ensures { result ≡ opens_below root (tag_of elem.now) }
{
    (root.document && is_word(elem, Word::Body))
        || (root.footnotes && is_word(elem, Word::Footnote))
        || (root.endnotes && is_word(elem, Word::Endnote))
        || (root.comments && is_word(elem, Word::Comment))
}
