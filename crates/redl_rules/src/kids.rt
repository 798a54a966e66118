//! Questions about the kids of an element. They are not asked for a word that idle elements may have.

ghost use Rattle.std.specs.Prelude.{◌≡◌, false};
ghost use Rattle.redl_tree.specs.Roles.Names.{named};
ghost use Rattle.redl_tree.specs.Roles.Words.{name_of, number};
ghost use Rattle.redl_tree.specs.Roles.Idle.{is_idle_number};
ghost use Rattle.redl_tree.specs.Model.Kids.{some_element, has_element, item_is};
ghost use Rattle.redl_tree.specs.Model.Nodes.{no_nodes, in_front};
ghost use Rattle.redl_tree.specs.Roles.Kinds.{is_change};
ghost use Rattle.redl_tree.specs.Roles.Lists.{is_thick as is_thick_tag};
ghost use Rattle.redl_rules.specs.Inside.Rules.{by_round_4};
ghost use Rattle.redl_tree.specs.Rules.Tests.{at_most_one, only_first, only_last};
ghost use Rattle.redl_tree.specs.Model.View.{nodes_of, item_of};
ghost use Rattle.redl_tree.specs.Roles.Arounds.{role_in};

use redl_tree::{Around, Node, Word, is_thick, is_word};

/// Whether some element has this name.
pub fn has_word(nodes: &[Node], word: Word) -> bool
    requires asked { is_idle_number false (number word) ≡ false }
    ensures { result ≡ some_element (named (name_of word)) (nodes_of nodes.now) }
{
    for node in nodes {
        if node_is(node, word) {
            return true;
        }
    }
    false
}

/// Whether there is a block among these.
pub fn has_thick(nodes: &[Node]) -> bool
    ensures { result ≡ some_element is_thick_tag (nodes_of nodes.now) }
{
    for node in nodes {
        if node_is_thick(node) {
            return true;
        }
    }
    false
}

/// Whether at most one element has this name.
pub fn is_once(nodes: &[Node], word: Word) -> bool
    requires asked { is_idle_number false (number word) ≡ false }
    ensures { result ≡ at_most_one (named (name_of word)) (nodes_of nodes.now) }
{
    let mut seen = false;
    for node in nodes {
        if node_is(node, word) {
            if seen {
                return false;
            }
            seen = true;
        }
    }
    true
}

/// Whether no element with this name comes after another element.
pub fn is_only_first(nodes: &[Node], word: Word) -> bool
    requires asked { is_idle_number false (number word) ≡ false }
    ensures { result ≡ only_first (named (name_of word)) (nodes_of nodes.now) }
{
    for i in 0..nodes.len() {
        if is_element(&nodes[i]) {
            return !has_word(&nodes[i + 1..], word);
        }
    }
    true
}

/// Whether no element comes after one with this name.
pub fn is_only_last(nodes: &[Node], word: Word) -> bool
    requires asked { is_idle_number false (number word) ≡ false }
    ensures { result ≡ only_last (named (name_of word)) (nodes_of nodes.now) }
{
    let mut ended = false;
    for node in nodes {
        if is_element(node) {
            if ended {
                return false;
            }
            ended = node_is(node, word);
        }
    }
    true
}

/// Whether no element comes after a change of properties. `around` sums up their ancestors.
pub fn changes_are_last(nodes: &[Node], around: Around) -> bool
    ensures { result ≡ by_round_4 around (nodes_of nodes.now) }
{
    // A change stands in properties alone.
    !around.is_quiet() || changes_end_properties(nodes, around)
}

// The same, by the role of each element.
fn changes_end_properties(nodes: &[Node], around: Around) -> bool
    ensures { result ≡ only_last (λ kid. is_change (role_in around kid)) (nodes_of nodes.now) }
{
    let mut ended = false;
    for node in nodes {
        if is_element(node) {
            if ended {
                return false;
            }
            ended = node_is_change(node, around);
        }
    }
    true
}

// Whether a node is an element, or idle elements that are kept as their text.
#[inline(always)]
fn is_element(node: &Node) -> bool
    ensures { result ≡ has_element (in_front (item_of node.now) no_nodes) }
{
    match node {
        Node::Elem(_) => true,
        Node::Bytes(_) => false,
        Node::Plain(_) => true,
    }
}

// Whether a node is an element with this name.
#[inline(always)]
fn node_is(node: &Node, word: Word) -> bool
    requires asked { is_idle_number false (number word) ≡ false }
    ensures { result ≡ item_is (named (name_of word)) (item_of node.now) }
{
    match node {
        Node::Elem(elem) => is_word(elem, word),
        Node::Bytes(_) => false,
        Node::Plain(_) => false,
    }
}

// Whether a node is a block.
#[inline(always)]
fn node_is_thick(node: &Node) -> bool
    ensures { result ≡ item_is is_thick_tag (item_of node.now) }
{
    match node {
        Node::Elem(elem) => is_thick(elem),
        Node::Bytes(_) => false,
        Node::Plain(_) => false,
    }
}

// Whether a node is a change of properties.
#[inline(always)]
fn node_is_change(node: &Node, around: Around) -> bool
    ensures { result ≡ item_is (λ kid. is_change (role_in around kid)) (item_of node.now) }
{
    match node {
        Node::Elem(elem) => around.role(elem).is_change(),
        Node::Bytes(_) => false,
        Node::Plain(_) => false,
    }
}
