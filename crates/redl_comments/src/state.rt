//! The state of one comment.

ghost use Rattle.std.specs.Prelude.{◌≡◌, IfOk};
ghost use Rattle.redl_opc.specs.Elements.{element_of};
ghost use Rattle.redl_order.specs.References.{is_on};
ghost use Rattle.redl_comments.specs.Comments.{state_of};

use redl_io::Text;
use redl_relations::value_in;
use redl_tree::Elem;
use std::alloc::{AllocError, Global};

/// What is said of the state of a comment.
#[derive(Drop)]
pub struct State {
    /// The id of the comment's last paragraph, as it is written.
    pub paragraph: Text,
    /// That of the comment to which it replies, or the empty text.
    pub parent: Text,
    /// Whether the comment is done.
    pub is_done: bool,
}

impl State {
    /// The state that an element says. `Err` means out of memory.
    pub(crate) fn read(alloc: Global, elem: &Elem) -> Result<State, AllocError>
        ensures { IfOk result (λ state. state ≡ state_of (element_of elem.now)) }
    {
        let paragraph = Text::copy_of(alloc, value_in(elem.tail(), b"paraId"))?;
        let parent = Text::copy_of(alloc, value_in(elem.tail(), b"paraIdParent"))?;
        Ok(State {
            paragraph,
            parent,
            is_done: is_on(value_in(elem.tail(), b"done")),
        })
    }
}

// Whether the value of an attribute says yes.
fn is_on(value: &[u8]) -> bool
    ensures { result ≡ is_on value.now }
{
    if value.is_empty() {
        return false;
    }
    if value == b"0".as_slice() {
        return false;
    }
    if value == b"false".as_slice() {
        return false;
    }
    value != b"off".as_slice()
}
