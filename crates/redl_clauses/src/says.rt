//! Whether nodes say or show anything.

ghost use Rattle.std.specs.Prelude.{◌≡◌, IfOk, false, true};
ghost use Rattle.redl_said.specs.Said.{said};
ghost use Rattle.redl_numbering.specs.Counts.{is_filled};
ghost use Rattle.redl_tree.specs.Model.View.{nodes_of};
ghost use Rattle.redl_clauses.specs.Signs.{shows_something};

use crate::signs::has_sign;
use redl_said::{Ear, tell_nodes};
use redl_tree::Node;
use std::alloc::AllocError;

/// Whether any bytes were heard.
#[derive(Drop)]
pub(crate) struct Heard {
    pub(crate) any: bool,
}

impl Ear for Heard {
    ghost use Rattle.redl_clauses.specs.Inside.Heards.{heard, heard-nothing, heard-more};

    ghost heard = { heard };

    ghost heard_nothing = { heard-nothing };

    ghost heard_more = { heard-more };

    fn hear(&mut self, bytes: &[u8]) -> Result<(), AllocError> {
        self.any = self.any || !bytes.is_empty();
        Ok(())
    }

    fn is_full(&self) -> bool {
        self.any
    }
}

/// Whether a reader sees anything of nodes in a line. `Err` means out of memory, here and below.
pub(crate) fn show_something(nodes: &[Node]) -> Result<bool, AllocError>
    ensures { IfOk result (λ something. something ≡ shows_something (nodes_of nodes.now)) }
{
    Ok(say_something(nodes)? || has_sign(nodes))
}

// Whether they say anything.
fn say_something(nodes: &[Node]) -> Result<bool, AllocError>
    ensures { IfOk result (λ something. something ≡ is_filled (said true false (nodes_of nodes.now))) }
{
    let mut ear = Heard { any: false };
    tell_nodes(nodes, true, false, &mut ear)?;
    Ok(ear.any)
}
