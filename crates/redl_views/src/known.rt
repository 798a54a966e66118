//! What is known of the own rows or cells in a list, so that what was found once isn't searched again in each shell.

ghost use Rattle.std.specs.Prelude.{◌≡◌, ◌∷◌, ◌≤◌, ◌<◌, ◌+◌, ◌-◌, ◌^◌, ℕ, List, Some, IfSome, true, false};
ghost use Rattle.redl_tables.specs.Places.{goes_at as goes_at_by};
ghost use Rattle.redl_tree.specs.Model.Nodes.{Nodes, element, in_front};
ghost use Rattle.redl_tree.specs.Model.View.{item_of, tag_of, kids_of};
ghost use Rattle.redl_views.specs.Ways.{asked_of_shell as asked_of_shell_by, answers_itself, is_step as is_step_by, passed_item, Holds, HoldsFrom, HoldsIn};

use redl_tables::{Finding, Question, Unit, goes_at, is_cell_list, is_shell};
use redl_tree::{Elem, Node, Place, Reach, Say, Word, is_word};

/// What is known of the own rows or cells in a list.
#[derive(Clone, Copy)]
pub(crate) struct Known<'a> {
    /// Which of them it is known of.
    pub asked: Question,
    /// What is found of them, where it is known.
    pub found: Option<Finding>,
    /// Where one stays, the way to it.
    pub way: &'a [usize],
}

impl<'a> Known<'a> {
    /// Nothing is known.
    pub fn nothing() -> Known<'a>
        ensures { (says : List Say) (nodes : Nodes) → Holds says result nodes }
    {
        Known {
            asked: Question::nothing(),
            found: None,
            way: &[],
        }
    }

    /// What is known of what a node of the list holds, where so many steps of the list are before it.
    pub fn below(self, node: &Node, passed: usize) -> Known<'a>
        ensures { (says : List Say) (rest : Nodes) → HoldsFrom says self.entry passed (in_front (item_of node.now) rest) → HoldsIn says result (item_of node.now) }
    {
        match node {
            Node::Elem(elem) => self.inside(elem, passed),
            Node::Bytes(_) | Node::Plain(_) => Known::nothing(),
        }
    }

    fn inside(self, elem: &Elem, passed: usize) -> Known<'a>
        ensures { (says : List Say) (rest : Nodes) → HoldsFrom says self.entry passed (element (tag_of elem.now) (kids_of elem.now) rest) → Holds says result (kids_of elem.now) }
    {
        match self.found {
            Some(Finding::Nothing) => self.nothing_inside(elem),
            Some(Finding::Living) => self.living_inside(elem, passed),
            Some(Finding::Gone) | None => Known::nothing(),
        }
    }

    // The same where the list has no own rows or cells.
    fn nothing_inside(self, elem: &Elem) -> Known<'a>
        ensures { (says : List Say) (passed : ℕ) (rest : Nodes) → self.entry.found ≡ Some Finding.Nothing → HoldsFrom says self.entry passed (element (tag_of elem.now) (kids_of elem.now) rest) → Holds says result (kids_of elem.now) }
    {
        if self.asked.is_answered_by(elem) {
            return Known::nothing();
        }
        Known {
            asked: self.asked.inside(elem),
            found: Some(Finding::Nothing),
            way: &[],
        }
    }

    // The same where one of them stays.
    fn living_inside(self, elem: &Elem, passed: usize) -> Known<'a>
        ensures { (says : List Say) (rest : Nodes) → self.entry.found ≡ Some Finding.Living → HoldsFrom says self.entry passed (element (tag_of elem.now) (kids_of elem.now) rest) → Holds says result (kids_of elem.now) }
    {
        match self.way_into(elem, passed) {
            Some(way) => Known {
                asked: self.asked.inside(elem),
                found: Some(Finding::Living),
                way,
            },
            None => Known::nothing(),
        }
    }

    // The rest of the way, where it goes through this element.
    fn way_into(self, elem: &Elem, passed: usize) -> Option<&'a [usize]>
        ensures { IfSome result (λ rest. (self.entry.way.now ≡ passed ∷ rest.now) × ((is_step_by (tag_of elem.now) ≡ true) × (answers_itself self.entry.asked (tag_of elem.now) ≡ false))) }
    {
        let (first, rest) = self.way.split_first()?;
        if *first == passed && is_step(elem) && !self.asked.is_answered_by(elem) {
            return Some(rest);
        }
        None
    }

    /// How many steps of the list are passed after a node, as far as it matters to what is known.
    pub fn passed_after(self, node: &Node, passed: usize) -> usize
        requires { passed < 2 ^ 64 - 1 }
        ensures holds { (says : List Say) (rest : Nodes) → HoldsFrom says self.entry passed (in_front (item_of node.now) rest) → HoldsFrom says self.entry result rest }
        ensures most { result ≤ passed + 1 }
    {
        match self.found {
            Some(Finding::Nothing | Finding::Living) => passed_node(node, passed),
            Some(Finding::Gone) | None => passed,
        }
    }
}

/// How many steps of a list are passed after a node.
pub(crate) fn passed_node(node: &Node, passed: usize) -> usize
    requires { passed < 2 ^ 64 - 1 }
    ensures { result ≡ passed_item (item_of node.now) passed }
{
    match node {
        Node::Elem(elem) if is_step(elem) => passed + 1,
        _ => passed,
    }
}

/// Whether an element may be an own row or cell, or hold some.
pub(crate) fn is_step(elem: &Elem) -> bool
    ensures { result ≡ is_step_by (tag_of elem.now) }
{
    is_word(elem, Word::Tr)
        || is_word(elem, Word::Tc)
        || is_word(elem, Word::Sdt)
        || is_word(elem, Word::SdtContent)
        || is_word(elem, Word::CustomXml)
}

/// What is asked of the kids of a shell at this place.
pub(crate) fn asked_of_shell(elem: &Elem, place: Place) -> Question
    ensures { result ≡ asked_of_shell_by place (tag_of elem.now) }
{
    let unit = if is_cell_list(place) {
        Unit::Cell
    } else {
        Unit::Row
    };
    Question {
        unit,
        reach: Reach::Direct.into(elem),
    }
}

/// Whether an element at this place is a table, a row, a cell or a shell that goes, by what is known of what it holds.
pub(crate) fn goes_by(elem: &Elem, place: Place, says: &[Say], known: Known<'_>) -> bool
    requires { Holds says.now known (kids_of elem.now) }
    ensures { result ≡ goes_at_by says.now place (tag_of elem.now) (kids_of elem.now) }
{
    match known.found {
        Some(found) if is_shell(elem, place) && is_same(known.asked, asked_of_shell(elem, place)) =>
            { found.is_gone() }
        _ => goes_at(elem, place, says),
    }
}

fn is_same(one: Question, other: Question) -> bool
    ensures { result ≡ true → one ≡ other }
{
    is_same_unit(one.unit, other.unit) && is_same_reach(one.reach, other.reach)
}

fn is_same_unit(one: Unit, other: Unit) -> bool
    ensures { result ≡ true → one ≡ other }
{
    match one {
        Unit::Row => matches!(other, Unit::Row),
        Unit::Cell => matches!(other, Unit::Cell),
    }
}

fn is_same_reach(one: Reach, other: Reach) -> bool
    ensures { result ≡ true → one ≡ other }
{
    match one {
        Reach::Direct => matches!(other, Reach::Direct),
        Reach::Control => matches!(other, Reach::Control),
        Reach::Beyond => matches!(other, Reach::Beyond),
    }
}
