//! The walk over idle elements that a list keeps as text.

ghost use Rattle.std.specs.Prelude.{◌≡◌, OnOk};
ghost use Rattle.redl_tree.specs.Model.IdleTexts.{idle_nodes};
ghost use Rattle.redl_spans.specs.Inside.Idle.{inside_idle};
ghost use Rattle.redl_spans.specs.Walks.{walked};

use crate::start::start;
use crate::walked::Walk;
use redl_idle::{Shows, show};
use redl_tree::Plain;
use std::alloc::AllocError;

/// What is known of the parent of some idle nodes.
#[derive(Clone, Copy)]
pub(crate) struct Below {
    /// It holds the properties of a run, or has an ancestor that does.
    pub(crate) quiet: bool,
    /// The bytes that it holds are text.
    pub(crate) in_text: bool,
}

impl Below {
    // What is known of an element with this local name.
    fn inside(&self, local: &[u8]) -> Below
        ensures { result ≡ inside_idle self.now local.now }
    {
        let quiet = self.quiet || local == b"rPr".as_slice();
        Below {
            quiet,
            in_text: !quiet && local == b"t".as_slice(),
        }
    }
}

impl Shows<Walk> for Below {
    ghost use Rattle.redl_spans.specs.Inside.Idle.{idle_rule};
    ghost use Rattle.redl_spans.specs.Inside.Steps.{by_steps};

    type Error = AllocError;

    ghost rule = { idle_rule };

    ghost taking = { by_steps };

    fn put_bytes(&self, bytes: &[u8], walk: &mut Walk) -> Result<(), AllocError> {
        walk.pass_bytes(bytes, self.in_text)
    }

    fn enter(
        &self,
        local: &[u8],
        tail: &[u8],
        _ahead: &[u8],
        walk: &mut Walk,
    ) -> Result<Below, AllocError> {
        if !self.quiet {
            start(local, tail, walk)?;
        }
        Ok(self.inside(local))
    }

    fn leave(&self, _walk: &mut Walk) -> Result<(), AllocError> {
        Ok(())
    }
}

/// Walks over idle elements, beside bytes that are text or not. `Err` means out of memory.
pub(crate) fn walk_plain(
    plain: &Plain<'_>,
    in_text: bool,
    walk: &mut Walk,
) -> Result<(), AllocError>
    ensures { OnOk result (walk.new ≡ walked in_text (idle_nodes plain.now) walk.old) }
{
    let below = Below {
        quiet: false,
        in_text,
    };
    show(plain, &below, walk)
}
