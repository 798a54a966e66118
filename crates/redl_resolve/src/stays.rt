//! Lists in which all nodes stay, so that the list can be passed in its place.

ghost use Rattle.std.specs.Prelude.{◌≡◌, true, List};
ghost use Rattle.redl_resolve.specs.Counts.{visits, item_visits, kids_visits};
ghost use Rattle.redl_resolve.specs.Inside.Rounds.{pass_round_of};
ghost use Rattle.redl_resolve.specs.Inside.Stays.{item_stays, elem_stays as elem_stays_by, all_stay as all_stay_by};
ghost use Rattle.redl_tree.specs.Model.Count.{count, item_count};
ghost use Rattle.redl_tree.specs.Model.Nodes.{Tag};
ghost use Rattle.redl_tree.specs.Model.View.{nodes_of, item_of, tag_of, kids_of};

use crate::rounds::Round;
use redl_tables::{fate_of, is_block_para, may_go, para_is_cut};
use redl_tree::{Elem, Fate, Node, Say};

/// Whether each node of the list stays, whatever becomes of its kids.
pub(crate) fn all_stay(nodes: &[Node], says: &[Say], round: Round) -> bool
    ensures visited { result ≡ true → visits says.now (nodes_of nodes.now) ≡ count (nodes_of nodes.now) }
    ensures stay { (ancestors : List Tag) → round ≡ pass_round_of says.now ancestors → result ≡ all_stay_by says.now ancestors (nodes_of nodes.now) }
{
    for node in nodes {
        if !stays(node, says, round) {
            return false;
        }
    }
    true
}

fn stays(node: &Node, says: &[Say], round: Round) -> bool
    ensures visited { result ≡ true → item_visits says.now (item_of node.now) ≡ item_count (item_of node.now) }
    ensures stay { (ancestors : List Tag) → round ≡ pass_round_of says.now ancestors → result ≡ item_stays says.now ancestors (item_of node.now) }
{
    match node {
        Node::Elem(elem) => elem_stays(elem, says, round),
        Node::Bytes(_) | Node::Plain(_) => true,
    }
}

fn elem_stays(elem: &Elem, says: &[Say], round: Round) -> bool
    ensures visited { result ≡ true → kids_visits says.now (tag_of elem.now) (kids_of elem.now) ≡ count (kids_of elem.now) }
    ensures stay { (ancestors : List Tag) → round ≡ pass_round_of says.now ancestors → result ≡ elem_stays_by says.now ancestors (tag_of elem.now) (kids_of elem.now) }
{
    fate_of(says, elem) == Fate::Leave
        && !may_go(elem, round.ancestors.site.place)
        && !(is_block_para(elem, round.ancestors.site.place, says)
            && para_is_cut(elem.kids(), says))
}
