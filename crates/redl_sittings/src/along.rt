//! The revisions of elements, one after the other.

ghost use Rattle.std.specs.Prelude.{◌≡◌, ◌++◌, ◌∷◌, replicate, OnOk};
ghost use Rattle.redl_tree.specs.Model.View.{nodes_of, tag_of, kids_of};
ghost use Rattle.redl_sittings.specs.SecondNumbers.{numbers_along};

use redl_tree::{Elem, Node};
use std::alloc::AllocError;

/// Adds the revision of each element, in the order of their start tags, and 0 for one that is in none. `Err` means out of
/// memory, and some may be there.
#[cycle(along)]
pub(crate) fn add_numbers(numbers: &mut Vec<u32>, nodes: &[Node]) -> Result<(), AllocError>
    ensures { OnOk result (numbers.new.items ≡ numbers.old.items ++ numbers_along (nodes_of nodes.now)) }
{
    for node in nodes {
        match node {
            Node::Elem(elem) => add_element(numbers, elem)?,
            Node::Plain(plain) => add_none(numbers, plain.elems())?,
            Node::Bytes(_) => {}
        }
    }
    Ok(())
}

// Adds 0 for each of so many elements.
fn add_none(numbers: &mut Vec<u32>, count: u32) -> Result<(), AllocError>
    ensures { OnOk result (numbers.new.items ≡ numbers.old.items ++ replicate count 0) }
{
    for _ in 0..count {
        numbers.push(0)?;
    }
    Ok(())
}

#[cycle(along)]
fn add_element(numbers: &mut Vec<u32>, elem: &Elem) -> Result<(), AllocError>
    ensures { OnOk result (numbers.new.items ≡ numbers.old.items ++ (tag_of elem.now).rev ∷ numbers_along (kids_of elem.now)) }
{
    numbers.push(elem.rev())?;
    add_numbers(numbers, elem.kids())
}
