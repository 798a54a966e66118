//! The revisions of the elements of each story, part by part.

ghost use Rattle.std.specs.Prelude.{◌≡◌, ◌++◌, [], IfOk, OnOk, map};
ghost use Rattle.redl_tree.specs.Model.IdleTexts.{idle_nodes};
ghost use Rattle.redl_tree.specs.Model.View.{nodes_of};
ghost use Rattle.redl_opc.specs.Elements.{element_of, elements_of};
ghost use Rattle.redl_opc.specs.Shape.{story_of};
ghost use Rattle.redl_sittings.specs.SecondNumbers.{numbers_below, part_numbers};

use crate::along::add_numbers;
use redl_laid::{First, Laid};
use redl_opc::{package_of, story_of};
use redl_tree::{Elem, Node, Plain};
use std::alloc::{AllocError, Global};

/// The revision of each element below the root of each story, in the order of their start tags, and 0 for one that is in none.
/// There is a list for each part of the package, which is empty for a part that is no story. `Err` means out of memory.
pub fn numbers_by_part(alloc: Global, nodes: &[Node]) -> Result<Vec<Vec<u32>>, AllocError>
    ensures { IfOk result (λ numbers. map (λ part. part.items) numbers.items ≡ part_numbers (nodes_of nodes.now)) }
{
    match package_of(nodes) {
        Some(root) => numbers_of_each(alloc, root.kids()),
        None => Ok(Vec::new(alloc)),
    }
}

// The same of each element of a list, as a part.
fn numbers_of_each(alloc: Global, nodes: &[Node]) -> Result<Vec<Vec<u32>>, AllocError>
    ensures { IfOk result (λ numbers. map (λ part. part.items) numbers.items ≡ map (λ part. numbers_below (story_of part)) (elements_of (nodes_of nodes.now))) }
{
    let mut numbers = Vec::new(alloc);
    for node in nodes {
        match node {
            Node::Elem(part) => numbers.push(numbers_of(alloc, part)?)?,
            Node::Plain(plain) => add_empty(alloc, &mut numbers, plain)?,
            Node::Bytes(_) => {}
        }
    }
    Ok(numbers)
}

// Adds an empty list for each element of a text, which are no stories.
fn add_empty(alloc: Global, numbers: &mut Vec<Vec<u32>>, plain: &Plain) -> Result<(), AllocError>
    ensures { OnOk result (map (λ part. part.items) numbers.new.items
        ≡ map (λ part. part.items) numbers.old.items ++ map (λ part. []) (elements_of (idle_nodes plain.now))) }
{
    let mut left = Laid::of(plain);
    while let Some((first, rest)) = left.first() {
        match first {
            First::Elem(_) => numbers.push(Vec::new(alloc))?,
            First::Bytes(_) => {}
        }
        left = rest;
    }
    Ok(())
}

// The same of one part.
fn numbers_of(alloc: Global, part: &Elem) -> Result<Vec<u32>, AllocError>
    ensures { IfOk result (λ numbers. numbers.items ≡ numbers_below (story_of (element_of part.now))) }
{
    let mut numbers = Vec::new(alloc);
    if let Some(root) = story_of(part) {
        add_numbers(&mut numbers, root.kids())?;
    }
    Ok(numbers)
}
