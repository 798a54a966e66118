//! Which own rows and cells go, answered list by list: so one walk over a story answers it for all tables and rows.

ghost use Rattle.std.specs.Prelude.{◌≡◌, ◌&&◌, ◌||◌, [], unwrap_or};
ghost use Rattle.redl_tables.specs.Asked.{asked, asked_inside, answer};
ghost use Rattle.redl_tables.specs.Owners.{elem_found, unit_name};
ghost use Rattle.redl_tree.specs.Roles.Lists.{is_direct};
ghost use Rattle.redl_tree.specs.Roles.Names.{is};
ghost use Rattle.redl_tree.specs.Model.View.{tag_of, kids_of};

use crate::owned::{Finding, Unit, finding_of_elem, is_own};
use redl_tree::{Elem, Reach, Say, Word, is_word};

/// What the nearest table or row has to know of a list below it: whether its own rows or cells go that are in the list, and
/// how it reaches the list.
#[derive(Clone, Copy, Debug, PartialEq, Eq)]
pub struct Question {
    /// Rows or cells.
    pub unit: Unit,
    /// How the list is reached.
    pub reach: Reach,
}

impl Question {
    /// The question for a story: it is outside every table, so it has no own rows and cells.
    pub fn nothing() -> Question
        ensures { result ≡ asked [] }
    {
        Question {
            unit: Unit::Row,
            reach: Reach::Beyond,
        }
    }

    /// The question for the kids of `elem`, whose own list has the question `self`.
    pub fn inside(self, elem: &Elem) -> Question
        ensures { result ≡ asked_inside (tag_of elem.now) self }
    {
        if is_word(elem, Word::Tbl) {
            Question {
                unit: Unit::Row,
                reach: Reach::Direct,
            }
        } else if is_word(elem, Word::Tr) {
            Question {
                unit: Unit::Cell,
                reach: Reach::Direct,
            }
        } else {
            Question {
                unit: self.unit,
                reach: self.reach.into(elem),
            }
        }
    }

    /// Whether an element answers by itself, so that its answer isn't that of its kids: an own row or cell, or the start of
    /// another table or row.
    pub fn is_answered_by(self, elem: &Elem) -> bool
        ensures { result ≡ ((is_direct self.reach && is (unit_name self.unit) (tag_of elem.now)) || (is "tbl" (tag_of elem.now) || is "tr" (tag_of elem.now))) }
    {
        is_own(elem, self.unit, self.reach) || is_word(elem, Word::Tbl) || is_word(elem, Word::Tr)
    }

    /// The answer of an element in a list of which this is asked. It looks at its kids.
    pub fn answer_of(self, elem: &Elem, says: &[Say]) -> Finding
        ensures { result ≡ elem_found self.unit says.now self.reach (tag_of elem.now) (kids_of elem.now) }
    {
        finding_of_elem(elem, self.unit, self.reach, says)
    }

    /// The answer of an element that answers by itself. `None` where its answer is that of its kids.
    pub fn own_answer(self, elem: &Elem, says: &[Say]) -> Option<Finding>
        ensures { unwrap_or result (answer says.now (asked_inside (tag_of elem.now) self) (kids_of elem.now)) ≡ elem_found self.unit says.now self.reach (tag_of elem.now) (kids_of elem.now) }
    {
        if self.is_answered_by(elem) {
            return Some(self.answer_of(elem, says));
        }
        None
    }
}
