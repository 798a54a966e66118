//! Stamps and marks, as they are written.

ghost use Rattle.std.specs.Prelude.{◌≡◌, map};
ghost use Rattle.redl_io.specs.Sink.{Puts};
ghost use Rattle.redl_bare.specs.BareText.{stamp_text, sign_name, mark_text, marks_text};
ghost use Rattle.redl_bare.specs.Inside.Views.{stamp_view, mark_view, marks_view};

use crate::escape::put_shown;
use redl_io::{Failed, Sink, put_piece};
use redl_marks::{Mark, Marks, Sign, Stamp};

/// Puts the author and the minute of a stamp, with a tab between them.
pub(crate) fn put_stamp<K: Sink>(stamp: Stamp<'_>, out: &mut K) -> Result<(), Failed>
    ensures { Puts K.told K.faults K.settled K.lenders out.old out.new (stamp_text (stamp_view stamp.entry)) result }
{
    put_shown(stamp.author, out)?;
    put_piece(b"\t", out)?;
    put_shown(stamp.minute, out)
}

/// Puts marks.
pub(crate) fn put_marks<K: Sink>(marks: &Marks<'_>, out: &mut K) -> Result<(), Failed>
    ensures { Puts K.told K.faults K.settled K.lenders out.old out.new (marks_text (marks_view marks.now)) result }
{
    put_list(marks.list.as_slice(), out)
}

fn put_list<K: Sink>(list: &[Mark<'_>], out: &mut K) -> Result<(), Failed>
    ensures { Puts K.told K.faults K.settled K.lenders out.old out.new (marks_text (map mark_view list.now)) result }
{
    for at in 0..list.len() {
        put_mark(list[at], out)?;
    }
    Ok(())
}

fn put_mark<K: Sink>(mark: Mark<'_>, out: &mut K) -> Result<(), Failed>
    ensures { Puts K.told K.faults K.settled K.lenders out.old out.new (mark_text (mark_view mark.entry)) result }
{
    put_piece(sign_name(mark.sign), out)?;
    put_piece(b"\t", out)?;
    put_stamp(mark.stamp, out)?;
    put_piece(b"\t", out)
}

fn sign_name(sign: Sign) -> &'static [u8]
    ensures { result.now ≡ sign_name sign }
{
    match sign {
        Sign::Inserted => b"ins",
        Sign::Deleted => b"del",
        Sign::MovedTo => b"move-to",
        Sign::MovedFrom => b"move-from",
        Sign::Formatted => b"run-props",
    }
}
