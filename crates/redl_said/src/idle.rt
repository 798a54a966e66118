//! What idle elements say that a list keeps as text.

ghost use Rattle.std.specs.Prelude.{◌≡◌, false, Bool, OnOk};
ghost use Rattle.redl_tree.specs.Model.IdleTexts.{idle_nodes};
ghost use Rattle.redl_tree.specs.Roles.Names.{of_w};
ghost use Rattle.redl_said.specs.Inside.Idle.{inside_idle};
ghost use Rattle.redl_said.specs.Said.{is_break, said, start_said};

use crate::ear::Ear;
use crate::said::tell_bytes;
use redl_idle::{Shows, show};
use redl_tree::Plain;
use std::alloc::AllocError;

/// What is known of the parent of some idle nodes.
#[derive(Clone, Copy)]
pub(crate) struct Below {
    /// It holds the properties of a run, or has an ancestor that does.
    pub quiet: bool,
    /// The bytes that it holds are text.
    pub in_text: bool,
}

impl Below {
    // What is known of an element with this local name.
    fn inside(&self, local: &[u8]) -> Below
        ensures { result ≡ inside_idle self.now local.now }
    {
        let quiet = self.quiet || local == b"rPr".as_slice();
        Below {
            quiet,
            in_text: !quiet && local == b"t".as_slice(),
        }
    }
}

impl<E: Ear> Shows<E> for Below {
    ghost use Rattle.redl_said.specs.Inside.Idle.{idle_rule};
    ghost use Rattle.redl_idle.specs.Takings.{by_state};

    type Error = AllocError;

    ghost rule = { idle_rule };

    ghost taking = { by_state E.heard E.heard_nothing E.heard_more };

    fn put_bytes(&self, bytes: &[u8], ear: &mut E) -> Result<(), AllocError> {
        tell_bytes(bytes, self.in_text, ear)
    }

    fn enter(
        &self,
        local: &[u8],
        _tail: &[u8],
        _ahead: &[u8],
        ear: &mut E,
    ) -> Result<Below, AllocError> {
        if !self.quiet {
            tell_idle_start(local, ear)?;
        }
        Ok(self.inside(local))
    }

    fn leave(&self, _ear: &mut E) -> Result<(), AllocError> {
        Ok(())
    }
}

/// Tells what idle elements say, in a line or not, beside bytes that are text or not. `Err` means out of memory.
pub fn tell_plain<E: Ear>(plain: &Plain<'_>, in_text: bool, ear: &mut E) -> Result<(), AllocError>
    ensures { (in_line : Bool) → OnOk result (ear.new ≡ E.heard ear.old (said in_line in_text (idle_nodes plain.now))) }
{
    let below = Below {
        quiet: false,
        in_text,
    };
    show(plain, &below, ear)
}

// Tells what an element of W with this local name says at its start tag. `Err` means out of memory.
fn tell_idle_start<E: Ear>(local: &[u8], ear: &mut E) -> Result<(), AllocError>
    ensures { OnOk result (ear.new ≡ E.heard ear.old (start_said (of_w local.now))) }
{
    if is_break_name(local) {
        return ear.hear(b" ");
    }
    if local == b"noBreakHyphen".as_slice() {
        return ear.hear(b"\xE2\x80\x91");
    }
    Ok(())
}

fn is_break_name(local: &[u8]) -> bool
    ensures { result ≡ is_break (of_w local.now) }
{
    local == b"tab".as_slice()
        || local == b"br".as_slice()
        || local == b"cr".as_slice()
        || local == b"p".as_slice()
}
