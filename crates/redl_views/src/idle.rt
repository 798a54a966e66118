//! What idle elements show that a list keeps as text.

ghost use Rattle.std.specs.Prelude.{◌≡◌, false};
ghost use Rattle.redl_io.specs.Sink.{Puts};
ghost use Rattle.redl_tree.specs.Model.IdleTexts.{idle_nodes};
ghost use Rattle.redl_tree.specs.Roles.Names.{of_w};
ghost use Rattle.redl_views.specs.Idle.{idle_rule, idle_shown, inside_idle};
ghost use Rattle.redl_views.specs.PlainText.{start_shown};

use redl_idle::{Shows, show};
use redl_io::{Failed, Sink, put_piece};
use redl_shown::put_shown;
use redl_tree::Plain;

/// What is known of the parent of some idle nodes.
#[derive(Clone, Copy)]
pub(crate) struct Below {
    /// It holds the properties of a run, or has an ancestor that does.
    pub quiet: bool,
    /// It is a `t`.
    pub shown: bool,
}

impl Below {
    // What is known of an element with this local name.
    fn inside(&self, local: &[u8]) -> Below
        ensures { result ≡ inside_idle self.now local.now }
    {
        let quiet = self.quiet || local == b"rPr".as_slice();
        Below {
            quiet,
            shown: !quiet && local == b"t".as_slice(),
        }
    }
}

impl<K: Sink> Shows<K> for Below {
    ghost use Rattle.redl_idle.specs.Takings.{by_puts};
    ghost use Rattle.redl_views.specs.Idle.{idle_rule};

    type Error = Failed;

    ghost rule = { idle_rule };

    ghost taking = { by_puts K.told K.faults K.settled K.lenders };

    fn put_bytes(&self, bytes: &[u8], out: &mut K) -> Result<(), Failed> {
        if self.shown {
            return put_shown(bytes, out);
        }
        Ok(())
    }

    fn enter(
        &self,
        local: &[u8],
        _tail: &[u8],
        _ahead: &[u8],
        out: &mut K,
    ) -> Result<Below, Failed> {
        if !self.quiet {
            put_idle_start(local, out)?;
        }
        Ok(self.inside(local))
    }

    fn leave(&self, _out: &mut K) -> Result<(), Failed> {
        Ok(())
    }
}

/// Puts what idle elements show, where bytes beside them are shown or not.
pub(crate) fn put_idle<K: Sink>(plain: &Plain<'_>, shown: bool, out: &mut K) -> Result<(), Failed>
    ensures { Puts K.told K.faults K.settled K.lenders out.old out.new (idle_shown shown (idle_nodes plain.now)) result }
{
    let below = Below {
        quiet: false,
        shown,
    };
    show(plain, &below, out)
}

/// Puts what an idle element with this local name shows at its start tag: a tab or a line break.
pub fn put_idle_start<K: Sink>(local: &[u8], out: &mut K) -> Result<(), Failed>
    ensures { Puts K.told K.faults K.settled K.lenders out.old out.new (start_shown (of_w local.now)) result }
{
    if local == b"tab".as_slice() {
        return put_piece(b"\t", out);
    }
    if local == b"br".as_slice() || local == b"cr".as_slice() {
        return put_piece(b"\n", out);
    }
    Ok(())
}
