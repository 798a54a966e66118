//! The states of the comments of a package.

ghost use Rattle.std.specs.Prelude.{◌≡◌, ◌++◌, IfOk, OnOk};
ghost use Rattle.redl_opc.specs.Elements.{element_of};
ghost use Rattle.redl_tree.specs.Model.View.{item_of, nodes_of};
ghost use Rattle.redl_comments.specs.Comments.{is_state, root_states, states_among, states_of};
ghost use Rattle.redl_comments.specs.Inside.Items.{item_root_states, item_states, states_if};

use crate::parts::states_data;
use crate::state::State;
use redl_opc::Package;
use redl_tree::{Elem, Node, Space};
use std::alloc::{AllocError, Global};

/// What is said of the states of a package's comments, in the order of their part. `Err` means out of memory, here and below.
pub fn states_of(alloc: Global, pkg: &Package) -> Result<Vec<State>, AllocError>
    ensures { IfOk result (λ states. states.items ≡ states_of pkg.now) }
{
    match states_data(alloc, pkg)? {
        Some(data) => {
            let states = states_below(alloc, data.kids())?;
            Ok(states)
        }
        None => Ok(Vec::new(alloc)),
    }
}

// Those that roots hold, which are among these nodes.
fn states_below(alloc: Global, nodes: &[Node]) -> Result<Vec<State>, AllocError>
    ensures { IfOk result (λ states. states.items ≡ root_states (nodes_of nodes.now)) }
{
    let mut states = Vec::new(alloc);
    for node in nodes {
        add_root(alloc, node, &mut states)?;
    }
    Ok(states)
}

fn add_root(alloc: Global, node: &Node, states: &mut Vec<State>) -> Result<(), AllocError>
    ensures { OnOk result (states.new.items ≡ states.old.items ++ item_root_states (item_of node.now)) }
{
    match node {
        Node::Elem(elem) => add_nodes(alloc, elem.kids(), states),
        Node::Bytes(_) | Node::Plain(_) => Ok(()),
    }
}

fn add_nodes(alloc: Global, nodes: &[Node], states: &mut Vec<State>) -> Result<(), AllocError>
    ensures { OnOk result (states.new.items ≡ states.old.items ++ states_among (nodes_of nodes.now)) }
{
    for node in nodes {
        add_node(alloc, node, states)?;
    }
    Ok(())
}

fn add_node(alloc: Global, node: &Node, states: &mut Vec<State>) -> Result<(), AllocError>
    ensures { OnOk result (states.new.items ≡ states.old.items ++ item_states (item_of node.now)) }
{
    match node {
        Node::Elem(elem) => add_elem(alloc, elem, states),
        Node::Bytes(_) | Node::Plain(_) => Ok(()),
    }
}

fn add_elem(alloc: Global, elem: &Elem, states: &mut Vec<State>) -> Result<(), AllocError>
    ensures { OnOk result (states.new.items ≡ states.old.items ++ states_if (element_of elem.now)) }
{
    if is_state(elem) {
        let state = State::read(alloc, elem)?;
        states.push(state)?;
    }
    Ok(())
}

fn is_state(elem: &Elem) -> bool
    ensures { result ≡ is_state (element_of elem.now) }
{
    match elem.space() {
        Space::Other => elem.local() == b"commentEx".as_slice(),
        Space::W | Space::M | Space::Pkg => false,
    }
}
