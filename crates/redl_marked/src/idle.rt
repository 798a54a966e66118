//! The marked text of idle elements that a list keeps as text, and the last byte of it.

ghost use Rattle.std.specs.Prelude.{◌≡◌, ℕ, List};
ghost use Rattle.redl_io.specs.Sink.{Puts};
ghost use Rattle.redl_tree.specs.Model.IdleTexts.{idle_nodes};
ghost use Rattle.redl_tree.specs.Roles.Names.{of_w};
ghost use Rattle.redl_marked.specs.MarkedText.{open_start};
ghost use Rattle.redl_marked.specs.Inside.Idle.{inside_idle, last_after};
ghost use Rattle.redl_marked.specs.Inside.Walks.{marked, last_of};

use crate::last::last_shown;
use crate::summary::MarkedSummary;
use crate::walk::put_bytes;
use redl_idle::{Shows, show};
use redl_io::{Failed, Sink, put_piece};
use redl_tree::Plain;
use redl_views::put_idle_start;
use std::convert::Infallible;

impl MarkedSummary {
    // The summary for the kids of an idle element with this local name.
    fn inside_idle(&self, local: &[u8]) -> MarkedSummary
        ensures { result ≡ inside_idle self.now local.now }
    {
        MarkedSummary {
            quiet: local == b"rPr".as_slice() || self.quiet,
            text: local == b"t".as_slice() && !self.quiet,
        }
    }
}

/// Puts the marked text of idle elements with this summary of their ancestors.
pub(crate) fn put_idle<K: Sink>(
    plain: &Plain<'_>,
    above: MarkedSummary,
    out: &mut K,
) -> Result<(), Failed>
    ensures { Puts K.told K.faults K.settled K.lenders out.old out.new (marked above (idle_nodes plain.now)) result }
{
    show(plain, &above, out)
}

impl<K: Sink> Shows<K> for MarkedSummary {
    ghost use Rattle.redl_idle.specs.Takings.{by_puts};
    ghost use Rattle.redl_marked.specs.Inside.Idle.{idle_rule};

    type Error = Failed;

    ghost rule = { idle_rule };

    ghost taking = { by_puts K.told K.faults K.settled K.lenders };

    fn put_bytes(&self, bytes: &[u8], out: &mut K) -> Result<(), Failed> {
        put_bytes(bytes, *self, out)
    }

    fn enter(
        &self,
        local: &[u8],
        _tail: &[u8],
        _ahead: &[u8],
        out: &mut K,
    ) -> Result<MarkedSummary, Failed> {
        if !self.quiet {
            put_open_start(local, out)?;
        }
        Ok(self.inside_idle(local))
    }

    fn leave(&self, _out: &mut K) -> Result<(), Failed> {
        Ok(())
    }
}

fn put_open_start<K: Sink>(local: &[u8], out: &mut K) -> Result<(), Failed>
    ensures { Puts K.told K.faults K.settled K.lenders out.old out.new (open_start (of_w local.now)) result }
{
    if local == b"noBreakHyphen".as_slice() {
        return put_piece("\u{2011}".as_bytes(), out);
    }
    put_idle_start(local, out)
}

/// The last byte of the marked text of idle elements with this summary of their ancestors. `None` exactly where they show nothing.
pub(crate) fn last_of_idle(plain: &Plain<'_>, above: MarkedSummary) -> Option<u8>
    ensures { result ≡ last_of (marked above (idle_nodes plain.now)) }
{
    let mut last = Last { byte: None };
    match show(plain, &above, &mut last) {
        Ok(()) => last.byte,
        Err(never) => match never {},
    }
}

// The last byte of the text so far.
#[derive(Clone, Copy)]
struct Last {
    byte: Option<u8>,
}

impl Last {
    // Goes on by a text with this last byte.
    fn go_on(&mut self, last: Option<u8>)
        ensures { (text : List ℕ) → last ≡ last_of text → self.new ≡ last_after self.old text }
    {
        self.byte = last.or(self.byte);
    }
}

impl Shows<Last> for MarkedSummary {
    ghost use Rattle.redl_marked.specs.Inside.Idle.{idle_rule, keeps_last};

    type Error = Infallible;

    ghost rule = { idle_rule };

    ghost taking = { keeps_last };

    fn put_bytes(&self, bytes: &[u8], out: &mut Last) -> Result<(), Infallible> {
        if self.text {
            out.go_on(last_shown(bytes));
        }
        Ok(())
    }

    fn enter(
        &self,
        local: &[u8],
        _tail: &[u8],
        _ahead: &[u8],
        out: &mut Last,
    ) -> Result<MarkedSummary, Infallible> {
        if !self.quiet {
            out.go_on(last_of_open_start(local));
        }
        Ok(self.inside_idle(local))
    }

    fn leave(&self, _out: &mut Last) -> Result<(), Infallible> {
        Ok(())
    }
}

fn last_of_open_start(local: &[u8]) -> Option<u8>
    ensures { result ≡ last_of (open_start (of_w local.now)) }
{
    if local == b"noBreakHyphen".as_slice() {
        Some(0x91)
    } else if local == b"tab".as_slice() {
        Some(b'\t')
    } else if local == b"br".as_slice() || local == b"cr".as_slice() {
        Some(b'\n')
    } else {
        None
    }
}
