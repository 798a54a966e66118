//! The facts that are told, in the order of their lines.

ghost use Rattle.std.specs.Prelude.{◌≡◌};
ghost use Rattle.redl_left.specs.Facts.{fact_name, fact_number};

/// What a document holds.
#[derive(Clone, Copy, Debug, PartialEq, Eq)]
pub enum Fact {
    /// An insertion of content.
    Ins = 0,
    /// A deletion of content.
    Del = 1,
    /// Content that moved away.
    MoveFrom = 2,
    /// Content that moved here.
    MoveTo = 3,
    /// An inserted paragraph's mark.
    MarkIns = 4,
    /// A deleted paragraph's mark.
    MarkDel = 5,
    /// A mark of a paragraph that moved away.
    MarkFrom = 6,
    /// A mark of a paragraph that moved here.
    MarkTo = 7,
    /// An inserted row.
    RowIns = 8,
    /// A deleted row.
    RowDel = 9,
    /// An inserted cell.
    CellIns = 10,
    /// A deleted cell.
    CellDel = 11,
    /// A change of the properties of a run.
    RunProps = 12,
    /// A change of the properties of a paragraph.
    ParaProps = 13,
    /// A change of the properties of a section.
    SectProps = 14,
    /// A change of the properties of a table.
    TableProps = 15,
    /// A change of a row's exceptions to the table's properties.
    ExceptProps = 16,
    /// A change of the properties of a row.
    RowProps = 17,
    /// A change of the properties of a cell.
    CellProps = 18,
    /// A mark that no revision holds.
    Undecided = 19,
    /// A start or an end of a range of moves that is paired with nothing.
    LooseMarker = 20,
    /// A comment that a reference names.
    Comment = 21,
    /// A comment that no reference names.
    Orphan = 22,
    /// A reference to a comment.
    CommentMark = 23,
    /// A footnote that no reference names.
    UnusedFootnote = 24,
    /// An endnote that no reference names.
    UnusedEndnote = 25,
    /// Text that is set to vanish.
    HiddenText = 26,
    /// The setting that tracks changes.
    Tracking = 27,
    /// A setting that protects the document.
    Protection = 28,
    /// An id of the sitting in which something was edited.
    Rsid = 29,
    /// The author of the document.
    Creator = 30,
    /// Who edited it last.
    LastEditor = 31,
    /// Its title.
    Title = 32,
    /// Its subject.
    Subject = 33,
    /// The author's manager.
    Manager = 34,
    /// The author's company.
    Company = 35,
    /// A person of the document.
    Person = 36,
    /// A custom property.
    CustomProperty = 37,
    /// A variable of the document.
    Variable = 38,
    /// The setting of a mail merge.
    MailMerge = 39,
    /// A relationship that leads out of the package.
    External = 40,
    /// A part that is an embedded object.
    Embedded = 41,
    /// A part with macros or their data.
    Macros = 42,
    /// A part with custom XML.
    CustomXml = 43,
    /// A place where an author is named elsewhere.
    Name = 44,
}

/// How many facts there are.
pub const FACTS: usize = 45;

impl Fact {
    // Its place in the order of the lines, from 0.
    pub(crate) fn number(self) -> usize
        ensures { result ≡ fact_number self }
    {
        self as usize
    }

    /// Its name in the lines.
    pub fn name(self) -> &'static str
        ensures { result.now ≡ fact_name self }
    {
        match self {
            Fact::Ins => "ins",
            Fact::Del => "del",
            Fact::MoveFrom => "move-from",
            Fact::MoveTo => "move-to",
            Fact::MarkIns => "mark-ins",
            Fact::MarkDel => "mark-del",
            Fact::MarkFrom => "mark-from",
            Fact::MarkTo => "mark-to",
            Fact::RowIns => "row-ins",
            Fact::RowDel => "row-del",
            Fact::CellIns => "cell-ins",
            Fact::CellDel => "cell-del",
            Fact::RunProps => "run-props",
            Fact::ParaProps => "para-props",
            Fact::SectProps => "sect-props",
            Fact::TableProps => "table-props",
            Fact::ExceptProps => "except-props",
            Fact::RowProps => "row-props",
            Fact::CellProps => "cell-props",
            Fact::Undecided => "undecided",
            Fact::LooseMarker => "loose-marker",
            Fact::Comment => "comment",
            Fact::Orphan => "orphan",
            Fact::CommentMark => "comment-mark",
            Fact::UnusedFootnote => "unused-footnote",
            Fact::UnusedEndnote => "unused-endnote",
            Fact::HiddenText => "hidden-text",
            Fact::Tracking => "tracking",
            Fact::Protection => "protection",
            Fact::Rsid => "rsid",
            Fact::Creator => "creator",
            Fact::LastEditor => "last-editor",
            Fact::Title => "title",
            Fact::Subject => "subject",
            Fact::Manager => "manager",
            Fact::Company => "company",
            Fact::Person => "person",
            Fact::CustomProperty => "custom-property",
            Fact::Variable => "variable",
            Fact::MailMerge => "mail-merge",
            Fact::External => "external",
            Fact::Embedded => "embedded",
            Fact::Macros => "macros",
            Fact::CustomXml => "custom-xml",
            Fact::Name => "name",
        }
    }
}
