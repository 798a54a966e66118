//! The own rows of a table and the own cells of a row, and whether they go (ECMA-376 Part 1, 17.4).

ghost use Rattle.std.specs.Prelude.{◌≡◌, ◌&&◌, if◌then◌else◌};
ghost use Rattle.redl_tables.specs.Owners.{unit_name, unit_goes, found_of, and_then, item_found, elem_found, is_gone, is_living};
ghost use Rattle.redl_tree.specs.Roles.Lists.{is_direct};
ghost use Rattle.redl_tree.specs.Roles.Names.{is};
ghost use Rattle.redl_tree.specs.Decisions.Tables.{own, row_goes as row_goes_by};
ghost use Rattle.redl_tree.specs.Model.View.{nodes_of, item_of, tag_of, kids_of};

use crate::cuts::{Owner, is_cut};
use redl_tree::{Elem, Node, Reach, Say, Word, is_word};

/// What a table or a row owns.
#[derive(Clone, Copy, Debug, PartialEq, Eq)]
pub enum Unit {
    /// Rows of a table.
    Row,
    /// Cells of a row.
    Cell,
}

/// What is found of own rows or cells.
#[derive(Clone, Copy, Debug, PartialEq, Eq)]
pub enum Finding {
    /// There is none.
    Nothing,
    /// All go.
    Gone,
    /// One stays.
    Living,
}

impl Finding {
    /// What is found of two lists together: this one, and then the later one.
    pub fn and(self, later: Finding) -> Finding
        ensures { result ≡ and_then self later }
    {
        match (self, later) {
            (Finding::Living, _) => Finding::Living,
            (Finding::Nothing, _) => later,
            (Finding::Gone, Finding::Living) => Finding::Living,
            (Finding::Gone, _) => Finding::Gone,
        }
    }

    /// Whether there are some, and all go.
    pub fn is_gone(self) -> bool
        ensures { result ≡ is_gone self }
    {
        matches!(self, Finding::Gone)
    }

    fn is_living(self) -> bool
        ensures { result ≡ is_living self }
    {
        matches!(self, Finding::Living)
    }
}

/// What these nodes hold, reached as `reach` says. It stops at the first row or cell that stays.
#[cycle(own)]
pub(crate) fn finding_of_nodes(nodes: &[Node], unit: Unit, reach: Reach, says: &[Say]) -> Finding
    ensures { result ≡ found_of (unit_goes unit says.now) (own (unit_name unit) reach (nodes_of nodes.now)) }
{
    let mut all = Finding::Nothing;
    for node in nodes {
        all = all.and(finding_of_node(node, unit, reach, says));
        if all.is_living() {
            return Finding::Living;
        }
    }
    all
}

// What is found of one node.
#[cycle(own)]
fn finding_of_node(node: &Node, unit: Unit, reach: Reach, says: &[Say]) -> Finding
    ensures { result ≡ item_found unit says.now reach (item_of node.now) }
{
    match node {
        Node::Elem(elem) => finding_of_elem(elem, unit, reach, says),
        Node::Bytes(_) | Node::Plain(_) => Finding::Nothing,
    }
}

/// What is found of an element: of a row or cell that is an own one, by itself, else among its kids.
#[cycle(own)]
pub(crate) fn finding_of_elem(elem: &Elem, unit: Unit, reach: Reach, says: &[Say]) -> Finding
    ensures { result ≡ elem_found unit says.now reach (tag_of elem.now) (kids_of elem.now) }
{
    if is_own(elem, unit, reach) {
        return finding_of_own(elem, unit, says);
    }
    finding_if_reached(elem.kids(), unit, reach.into(elem), says)
}

// What is found of an own row or cell.
#[cycle(own)]
fn finding_of_own(elem: &Elem, unit: Unit, says: &[Say]) -> Finding
    ensures { result ≡ (if unit_goes unit says.now (kids_of elem.now) then Finding.Gone else Finding.Living) }
{
    if goes_itself(elem.kids(), unit, says) {
        Finding::Gone
    } else {
        Finding::Living
    }
}

// The same as `finding_of_nodes`, which is left out where nothing is reached.
#[cycle(own)]
fn finding_if_reached(nodes: &[Node], unit: Unit, reach: Reach, says: &[Say]) -> Finding
    ensures { result ≡ found_of (unit_goes unit says.now) (own (unit_name unit) reach (nodes_of nodes.now)) }
{
    match reach {
        Reach::Beyond => Finding::Nothing,
        _ => finding_of_nodes(nodes, unit, reach, says),
    }
}

/// Whether an element is an own row or cell, where its list is reached as `reach` says.
pub(crate) fn is_own(elem: &Elem, unit: Unit, reach: Reach) -> bool
    ensures { result ≡ (is_direct reach && is (unit_name unit) (tag_of elem.now)) }
{
    reach == Reach::Direct && is_unit(elem, unit)
}

// Whether an element is a row or a cell.
fn is_unit(elem: &Elem, unit: Unit) -> bool
    ensures { result ≡ is (unit_name unit) (tag_of elem.now) }
{
    match unit {
        Unit::Row => is_word(elem, Word::Tr),
        Unit::Cell => is_word(elem, Word::Tc),
    }
}

/// Whether a row or a cell with these kids goes.
#[cycle(own)]
pub(crate) fn goes_itself(kids: &[Node], unit: Unit, says: &[Say]) -> bool
    ensures { result ≡ unit_goes unit says.now (nodes_of kids.now) }
{
    match unit {
        Unit::Row => row_goes(kids, says),
        Unit::Cell => is_cut(kids, Owner::Cell, says),
    }
}

// Whether a row with these kids is cut, or has cells and all go.
#[cycle(own)]
fn row_goes(kids: &[Node], says: &[Say]) -> bool
    ensures { result ≡ row_goes_by says.now (nodes_of kids.now) }
{
    is_cut(kids, Owner::Row, says)
        || finding_of_nodes(kids, Unit::Cell, Reach::Direct, says).is_gone()
}
