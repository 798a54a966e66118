//! Lines: characters that follow one another with equal marks are one.

ghost use Rattle.std.specs.Prelude.{◌≡◌, ◌∷◌, ◌++◌, [], Some, None, OnOk, codes};
ghost use Rattle.redl_io.specs.Sink.{Puts};
ghost use Rattle.redl_bare.specs.Units.{thing, story, member};
ghost use Rattle.redl_bare.specs.BareText.{closing, goes_on, text_begin, begun, marks_text, named_line, member_name, stamp_text};
ghost use Rattle.redl_bare.specs.Inside.Views.{stamp_view, marks_view, line_view};
ghost use Rattle.redl_bare.specs.Inside.Puts.{PutsUnits};

use crate::fields::Fields;
use crate::stamp_text::{put_marks, put_stamp};
use crate::units::{Story, Thing, member_name};
use crate::writer::Writer;
use redl_io::{Failed, Sink, put_piece, put_pieces};
use redl_marks::{Marks, Stamp};
use redl_tree::Kind;

/// The line of characters.
#[derive(Drop)]
pub(crate) struct Line<'a> {
    /// Whether a line is open.
    pub is_open: bool,
    /// The marks of its characters.
    pub marks: Marks<'a>,
}

impl<'a> Line<'a> {
    /// No line is open.
    pub(crate) fn none() -> Line<'a>
        ensures { line_view result ≡ None }
    {
        Line {
            is_open: false,
            marks: Marks::none(),
        }
    }

    fn start(&mut self, marks: &Marks<'a>)
        ensures { line_view self.new ≡ Some (marks_view marks.now) }
    {
        self.is_open = true;
        self.marks.copy(marks);
    }

    fn goes_on(&self, marks: &Marks<'_>) -> bool
        ensures { result ≡ goes_on (line_view self.now) (marks_view marks.now) }
    {
        if self.is_open {
            return self.marks.same(marks);
        }
        false
    }
}

/// Puts the end of the line of characters that is open, if one is.
pub(crate) fn close<K: Sink>(line: &Line<'_>, sink: &mut K) -> Result<(), Failed>
    ensures { Puts K.told K.faults K.settled K.lenders sink.old sink.new (closing (line_view line.now)) result }
{
    if line.is_open {
        return put_piece(b"\n", sink);
    }
    Ok(())
}

/// Puts what comes before a character, and opens its line.
pub(crate) fn begin<'a, K: Sink>(writer: &mut Writer<'a, K>) -> Result<(), Failed>
    ensures puts { Puts K.told K.faults K.settled K.lenders writer.old.sink writer.new.sink (text_begin (line_view writer.old.line) (marks_view writer.old.marks)) result }
    ensures after { OnOk result (line_view writer.new.line ≡ begun (line_view writer.old.line) (marks_view writer.old.marks)) }
    ensures marks { writer.new.marks ≡ writer.old.marks }
    ensures fields { writer.new.fields ≡ writer.old.fields }
{
    if writer.line.goes_on(&writer.marks) {
        return Ok(());
    }
    put_begin(&writer.marks, &writer.line, &mut writer.sink)?;
    writer.line.start(&writer.marks);
    Ok(())
}

fn put_begin<K: Sink>(marks: &Marks<'_>, line: &Line<'_>, sink: &mut K) -> Result<(), Failed>
    ensures { Puts K.told K.faults K.settled K.lenders sink.old sink.new (closing (line_view line.now) ++ (marks_text (marks_view marks.now) ++ codes "|")) result }
{
    close(line, sink)?;
    put_marks(marks, sink)?;
    put_piece(b"|", sink)
}

/// Puts the line of something with this name and the marks of what is put now.
pub(crate) fn put_named<'a, K: Sink>(name: &[u8], writer: &mut Writer<'a, K>) -> Result<(), Failed>
    ensures puts { Puts K.told K.faults K.settled K.lenders writer.old.sink writer.new.sink (closing (line_view writer.old.line) ++ named_line (marks_view writer.old.marks) name.now) result }
    ensures after { OnOk result (line_view writer.new.line ≡ None) }
    ensures marks { writer.new.marks ≡ writer.old.marks }
    ensures fields { writer.new.fields ≡ writer.old.fields }
{
    close(&writer.line, &mut writer.sink)?;
    put_marks(&writer.marks, &mut writer.sink)?;
    writer.line.is_open = false;
    put_pieces(&[b"*".as_slice(), name, b"\n"], &mut writer.sink)
}

/// Puts the line of the end of a paragraph, or of the begin of a row or a cell.
pub(crate) fn put_thing<'a, K: Sink>(what: Thing, writer: &mut Writer<'a, K>) -> Result<(), Failed>
    ensures { PutsUnits K.told K.faults K.settled K.lenders writer.old writer.new (thing (marks_view writer.old.marks) what ∷ []) result }
{
    put_named(what.name(), writer)
}

/// Puts the line with which a story begins. No field goes on into it.
pub(crate) fn put_story<'a, K: Sink>(which: Story, writer: &mut Writer<'a, K>) -> Result<(), Failed>
    ensures { PutsUnits K.told K.faults K.settled K.lenders writer.old writer.new (story which ∷ []) result }
{
    close(&writer.line, &mut writer.sink)?;
    writer.line.is_open = false;
    writer.fields = Fields::none();
    put_pieces(&[b"= ".as_slice(), which.name(), b"\n"], &mut writer.sink)
}

/// Puts the line of a member of a revision of this kind.
pub(crate) fn put_member<'a, K: Sink>(
    kind: Kind,
    stamp: Stamp<'_>,
    writer: &mut Writer<'a, K>,
) -> Result<(), Failed>
    ensures { PutsUnits K.told K.faults K.settled K.lenders writer.old writer.new (member kind (stamp_view stamp.entry) ∷ []) result }
{
    close(&writer.line, &mut writer.sink)?;
    writer.line.is_open = false;
    put_own_line(kind, stamp, &mut writer.sink)
}

fn put_own_line<K: Sink>(kind: Kind, stamp: Stamp<'_>, sink: &mut K) -> Result<(), Failed>
    ensures { Puts K.told K.faults K.settled K.lenders sink.old sink.new
        (codes "+" ++ (member_name kind ++ (9 ∷ (stamp_text (stamp_view stamp.entry) ++ (10 ∷ []))))) result }
{
    put_pieces(&[b"+".as_slice(), member_name(kind), b"\t"], sink)?;
    put_stamp(stamp, sink)?;
    put_piece(b"\n", sink)
}
