//! What a reader passes in idle elements that a list keeps as text.

ghost use Rattle.std.specs.Prelude.{◌≡◌, ◌++◌, OnOk};
ghost use Rattle.redl_tree.specs.Model.IdleTexts.{idle_nodes};
ghost use Rattle.redl_edits.specs.Inside.Idle.{inside_idle};
ghost use Rattle.redl_edits.specs.Passed.{passed};

use crate::passed::{Passed, pass_name};
use redl_idle::{Shows, show};
use redl_said::tell_bytes;
use redl_tree::Plain;
use std::alloc::AllocError;

/// What is known of the parent of some idle nodes.
#[derive(Clone, Copy)]
pub(crate) struct Below {
    /// It holds the properties of a run, or has an ancestor that does.
    pub(crate) quiet: bool,
    /// The bytes that it holds are text.
    pub(crate) in_text: bool,
}

impl Below {
    // What is known of an element with this local name.
    fn inside(&self, local: &[u8]) -> Below
        ensures { result ≡ inside_idle self.now local.now }
    {
        let quiet = self.quiet || local == b"rPr".as_slice();
        Below {
            quiet,
            in_text: !quiet && local == b"t".as_slice(),
        }
    }
}

impl Shows<Passed> for Below {
    ghost use Rattle.redl_edits.specs.Inside.Hearing.{heard, heard-more, heard-nothing};
    ghost use Rattle.redl_edits.specs.Inside.Idle.{idle_rule};
    ghost use Rattle.redl_idle.specs.Takings.{by_state};

    type Error = AllocError;

    ghost rule = { idle_rule };

    ghost taking = { by_state heard heard-nothing heard-more };

    fn put_bytes(&self, bytes: &[u8], out: &mut Passed) -> Result<(), AllocError> {
        tell_bytes(bytes, self.in_text, out)
    }

    fn enter(
        &self,
        local: &[u8],
        _tail: &[u8],
        _ahead: &[u8],
        out: &mut Passed,
    ) -> Result<Below, AllocError> {
        if !self.quiet {
            pass_name(local, out)?;
        }
        Ok(self.inside(local))
    }

    fn leave(&self, _out: &mut Passed) -> Result<(), AllocError> {
        Ok(())
    }
}

/// Passes idle elements, beside bytes that are text or not. `Err` means out of memory.
pub(crate) fn pass_plain(
    plain: &Plain<'_>,
    in_text: bool,
    out: &mut Passed,
) -> Result<(), AllocError>
    ensures { OnOk result (out.new ≡ out.old ++ passed in_text (idle_nodes plain.now)) }
{
    let below = Below {
        quiet: false,
        in_text,
    };
    show(plain, &below, out)
}
