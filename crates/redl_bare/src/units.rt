//! What has a line of its own.

ghost use Rattle.std.specs.Prelude.{◌≡◌};
ghost use Rattle.redl_tree.specs.declared.kinds.Kind.TheVariants.{Mark, Row, Cell};
ghost use Rattle.redl_bare.specs.Units.{has_line};
ghost use Rattle.redl_bare.specs.BareText.{thing_name, story_name, member_name, prop_name};

use redl_tree::{Kind, Prop, Trace};

/// What has a line of its own.
#[derive(Clone, Copy, Debug, PartialEq, Eq)]
pub enum Thing {
    /// The end of a paragraph.
    Paragraph,
    /// The begin of a row.
    Row,
    /// The begin of a cell.
    Cell,
}

impl Thing {
    /// Its name in a line.
    pub(crate) fn name(self) -> &'static [u8]
        ensures { result.now ≡ thing_name self }
    {
        match self {
            Thing::Paragraph => b"paragraph",
            Thing::Row => b"row",
            Thing::Cell => b"cell",
        }
    }
}

/// What a story is.
#[derive(Clone, Copy, Debug, PartialEq, Eq)]
pub enum Story {
    /// The main one.
    Document,
    /// A header.
    Header,
    /// A footer.
    Footer,
    /// A footnote.
    Footnote,
    /// An endnote.
    Endnote,
}

impl Story {
    /// Its name in a line.
    pub(crate) fn name(self) -> &'static [u8]
        ensures { result.now ≡ story_name self }
    {
        match self {
            Story::Document => b"document",
            Story::Header => b"header",
            Story::Footer => b"footer",
            Story::Footnote => b"footnote",
            Story::Endnote => b"endnote",
        }
    }
}

/// Whether a member of this kind has a line of its own in properties.
pub(crate) fn has_line(kind: Kind) -> bool
    ensures { result ≡ has_line kind }
{
    match kind {
        Kind::Mark(_) | Kind::Row(_) | Kind::Cell(_) | Kind::Change(_) => true,
        Kind::Plain | Kind::Content(_) | Kind::Marker => false,
    }
}

/// The name that a member of this kind has in listings.
pub(crate) fn member_name(kind: Kind) -> &'static [u8]
    ensures { result.now ≡ member_name kind }
{
    match kind {
        Kind::Mark(trace) => mark_name(trace),
        Kind::Row(trace) => row_name(trace),
        Kind::Cell(trace) => cell_name(trace),
        Kind::Change(prop) => change_name(prop),
        Kind::Plain | Kind::Content(_) | Kind::Marker => b"",
    }
}

fn mark_name(trace: Trace) -> &'static [u8]
    ensures { result.now ≡ member_name (Mark trace) }
{
    match trace {
        Trace::Ins => b"mark-ins",
        Trace::Del => b"mark-del",
        Trace::From => b"mark-from",
        Trace::To => b"mark-to",
    }
}

fn row_name(trace: Trace) -> &'static [u8]
    ensures { result.now ≡ member_name (Row trace) }
{
    match trace {
        Trace::Ins => b"row-ins",
        Trace::Del => b"row-del",
        Trace::From => b"row-from",
        Trace::To => b"row-to",
    }
}

fn cell_name(trace: Trace) -> &'static [u8]
    ensures { result.now ≡ member_name (Cell trace) }
{
    match trace {
        Trace::Ins => b"cell-ins",
        Trace::Del => b"cell-del",
        Trace::From => b"cell-from",
        Trace::To => b"cell-to",
    }
}

fn change_name(prop: Prop) -> &'static [u8]
    ensures { result.now ≡ prop_name prop }
{
    match prop {
        Prop::Run => b"run-props",
        Prop::Para => b"para-props",
        Prop::Sect => b"sect-props",
        Prop::Table => b"table-props",
        Prop::Except => b"except-props",
        Prop::Row => b"row-props",
        Prop::Cell => b"cell-props",
    }
}
