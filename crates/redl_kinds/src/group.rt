//! Groups of kinds: one name for all kinds of content, of paragraphs, of rows, of cells or of properties.
ghost use Rattle.std.specs.Prelude.{◌≡◌};

use crate::rev_kind::RevKind;

/// A group of kinds of revisions. Each kind is in one group.
#[derive(Clone, Copy, Debug, PartialEq, Eq)]
pub enum Group {
    /// Run content that is inserted, deleted or moved, and paired moves.
    Content,
    /// Ends of paragraphs.
    Marks,
    /// Rows.
    Rows,
    /// Cells.
    Cells,
    /// Changes of properties.
    Props,
}

impl Group {
    ghost use Rattle.redl_kinds.specs.Groups.{is_in};

    /// Whether the kind is in the group.
    pub fn has(self, kind: RevKind) -> bool
        ensures { result ≡ is_in self kind }
    {
        match self {
            Group::Content => matches!(kind, RevKind::Content(_) | RevKind::Move),
            Group::Marks => matches!(kind, RevKind::Mark(_)),
            Group::Rows => matches!(kind, RevKind::Row(_)),
            Group::Cells => matches!(kind, RevKind::Cell(_)),
            Group::Props => matches!(kind, RevKind::Change(_)),
        }
    }
}
