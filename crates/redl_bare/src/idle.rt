//! The texts of idle elements that a list keeps as text.

ghost use Rattle.redl_tree.specs.Model.IdleTexts.{idle_nodes};
ghost use Rattle.redl_bare.specs.Units.{start_texts, end_texts, byte_texts, in_marks, units_in};
ghost use Rattle.redl_bare.specs.Inside.Idle.{tag_with, texts_at, numbers, numbered};
ghost use Rattle.redl_bare.specs.Inside.Puts.{PutsUnits};
ghost use Rattle.redl_bare.specs.Inside.Views.{marks_view};

use crate::place::BarePlace;
use crate::starts::{end_of, start_of};
use crate::texts::{put_field, put_short, put_shown_texts};
use crate::values::value_in;
use crate::writer::Writer;
use redl_idle::{Shows, show};
use redl_io::{Failed, Sink};
use redl_tree::Plain;

/// Puts the texts of idle elements. It takes no memory.
pub(crate) fn put_idle<'a, K: Sink>(
    plain: &Plain<'_>,
    place: BarePlace,
    writer: &mut Writer<'a, K>,
) -> Result<(), Failed>
    ensures { PutsUnits K.told K.faults K.settled K.lenders writer.old writer.new (units_in place (marks_view writer.old.marks) (idle_nodes plain.now)) result }
{
    show(plain, &place, writer)
}

impl<'a, K: Sink> Shows<Writer<'a, K>> for BarePlace {
    ghost use Rattle.redl_bare.specs.Inside.Idle.{idle_rule};
    ghost use Rattle.redl_bare.specs.Inside.Taking.{by_units};

    type Error = Failed;

    ghost rule = { idle_rule };

    ghost taking = { by_units K.told K.faults K.settled K.lenders };

    fn put_bytes(&self, bytes: &[u8], writer: &mut Writer<'a, K>) -> Result<(), Failed> {
        put_idle_bytes(*self, bytes, writer)
    }

    fn enter(
        &self,
        local: &[u8],
        tail: &[u8],
        _ahead: &[u8],
        writer: &mut Writer<'a, K>,
    ) -> Result<BarePlace, Failed> {
        put_idle_start(*self, local, tail, writer)?;
        Ok(self.inside_idle(local))
    }

    fn leave(&self, writer: &mut Writer<'a, K>) -> Result<(), Failed> {
        put_idle_end(*self, writer)
    }
}

fn put_idle_bytes<'a, K: Sink>(
    place: BarePlace,
    bytes: &[u8],
    writer: &mut Writer<'a, K>,
) -> Result<(), Failed>
    ensures { PutsUnits K.told K.faults K.settled K.lenders writer.old writer.new (in_marks (marks_view writer.old.marks) (numbered (numbers (byte_texts place bytes.now)))) result }
{
    match place {
        BarePlace::InText => put_shown_texts(bytes, writer),
        _ => Ok(()),
    }
}

fn put_idle_start<'a, K: Sink>(
    place: BarePlace,
    local: &[u8],
    tail: &[u8],
    writer: &mut Writer<'a, K>,
) -> Result<(), Failed>
    ensures { PutsUnits K.told K.faults K.settled K.lenders writer.old writer.new (in_marks (marks_view writer.old.marks) (numbered (numbers (texts_at place (tag_with local.now tail.now))))) result }
{
    if place.is_open() {
        return put_open_idle(local, tail, writer);
    }
    Ok(())
}

fn put_open_idle<'a, K: Sink>(
    local: &[u8],
    tail: &[u8],
    writer: &mut Writer<'a, K>,
) -> Result<(), Failed>
    ensures { PutsUnits K.told K.faults K.settled K.lenders writer.old writer.new (in_marks (marks_view writer.old.marks) (start_texts (tag_with local.now tail.now))) result }
{
    if local == b"fldSimple".as_slice() {
        return put_field(value_in(tail, b"instr"), writer);
    }
    put_short(start_of(local, tail), writer)
}

fn put_idle_end<'a, K: Sink>(place: BarePlace, writer: &mut Writer<'a, K>) -> Result<(), Failed>
    ensures { PutsUnits K.told K.faults K.settled K.lenders writer.old writer.new (in_marks (marks_view writer.old.marks) (numbered (numbers (end_texts place)))) result }
{
    put_short(end_of(place), writer)
}
