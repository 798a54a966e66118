//! A summary of a node's ancestors: all that the walk asks of them.

ghost use Rattle.std.specs.Prelude.{◌≡◌, ◌∷◌, ◌||◌, []};
ghost use Rattle.redl_tree.specs.Model.View.{tag_of};
ghost use Rattle.redl_tree.specs.Roles.Names.{is_any};
ghost use Rattle.redl_marked.specs.Inside.Walks.{summary_of, inside};

use redl_tree::{Elem, Word, is_named, is_quiet, is_word};

/// A summary of the ancestors of some nodes in their story.
#[derive(Clone, Copy)]
pub(crate) struct MarkedSummary {
    /// Some ancestor is properties, where nothing is text of the document.
    pub quiet: bool,
    /// The nearest ancestor is a text, live or deleted, and is open.
    pub text: bool,
}

/// The summary for the kids of a story's root.
pub(crate) fn in_root(root: &Elem) -> MarkedSummary
    ensures { result ≡ summary_of (tag_of root.now ∷ []) }
{
    inside(
        root,
        MarkedSummary {
            quiet: false,
            text: false,
        },
    )
}

/// The summary for the kids of an element with this summary.
pub(crate) fn inside(elem: &Elem, above: MarkedSummary) -> MarkedSummary
    ensures { result ≡ inside (tag_of elem.now) above }
{
    MarkedSummary {
        quiet: is_quiet(elem) || above.quiet,
        text: is_text(elem) && !above.quiet,
    }
}

fn is_text(elem: &Elem) -> bool
    ensures { result ≡ is_any ("t" ∷ "delText" ∷ []) (tag_of elem.now) }
{
    is_named(elem, b"t") || is_word(elem, Word::DelText)
}
