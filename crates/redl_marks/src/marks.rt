//! The marks of a text, as a set in a list of a fixed size.

ghost use Rattle.std.specs.Prelude.{◌≡◌, Some, ◌<◌, ◌≤◌, length, map, IfSome};
ghost use Rattle.std.specs.BTreeSet.{insert_key};
ghost use Rattle.arrayvec.specs.ArrayVec.{array_vec_len};
ghost use Rattle.redl_marks.specs.Marks.{no_marks, mark_order, with_mark, same_marks};
ghost use Rattle.redl_marks.specs.Views.{mark_view, marks_view, with_at, without_at};

use crate::mark::Mark;
use arrayvec::ArrayVec;
use std::cmp::Ordering;

// As many as elements may be nested.
const MOST: usize = 512;

/// The marks of a text, in their order, each once.
#[derive(Drop)]
pub struct Marks<'a> {
    /// The marks.
    pub list: ArrayVec<Mark<'a>, MOST>,
}

impl<'a> Marks<'a> {
    /// None.
    pub fn none() -> Marks<'a>
        ensures { marks_view result ≡ no_marks }
    {
        Marks {
            list: ArrayVec::new(),
        }
    }

    /// Puts a mark in its place, unless it is among them, and gives the place.
    pub fn add(&mut self, mark: Mark<'a>) -> Option<usize>
        ensures marks { marks_view self.new ≡ with_mark (marks_view self.old) (mark_view mark.entry) }
        ensures back { without_at result self.new.list.items ≡ self.old.list.items }
        ensures within { IfSome result (λ at. at < array_vec_len self.new.list) }
    {
        if self.list.is_full() {
            return None;
        }
        match place_among(self.list.as_slice(), mark) {
            Some(at) => {
                self.list.insert(at, mark);
                Some(at)
            }
            None => None,
        }
    }

    /// Takes the one away that came to them at a place, if one did.
    pub fn leave(&mut self, came: Option<usize>)
        requires { IfSome came (λ at. at < array_vec_len self.old.list) }
        ensures { self.new.list.items ≡ without_at came self.old.list.items }
    {
        match came {
            Some(at) => self.take(at),
            None => {}
        }
    }

    fn take(&mut self, at: usize)
        requires { at < array_vec_len self.old.list }
        ensures { self.new.list.items ≡ without_at (Some at) self.old.list.items }
    {
        self.list.remove(at);
    }

    /// Makes them the same as others.
    pub fn copy(&mut self, others: &Marks<'a>)
        ensures { self.new.list.items ≡ others.now.list.items }
    {
        self.list.clear();
        let _ = self.list.try_extend_from_slice(others.list.as_slice());
    }

    /// Whether both are the same.
    pub fn same(&self, other: &Marks<'_>) -> bool
        ensures { result ≡ same_marks (marks_view self.now) (marks_view other.now) }
    {
        are_same(self.list.as_slice(), other.list.as_slice())
    }
}

// The place of a mark among others, or `None` where it is among them.
fn place_among(marks: &[Mark<'_>], mark: Mark<'_>) -> Option<usize>
    ensures within { IfSome result (λ at. at ≤ length marks.now) }
    ensures place { with_at result (map mark_view marks.now) (mark_view mark.entry) ≡ insert_key mark_order (map mark_view marks.now) (mark_view mark.entry) }
{
    for at in 0..marks.len() {
        match mark.order(marks[at]) {
            Ordering::Less => return Some(at),
            Ordering::Equal => return None,
            Ordering::Greater => {}
        }
    }
    Some(marks.len())
}

fn are_same(marks: &[Mark<'_>], others: &[Mark<'_>]) -> bool
    ensures { result ≡ same_marks (map mark_view marks.now) (map mark_view others.now) }
{
    if marks.len() != others.len() {
        return false;
    }
    for at in 0..marks.len() {
        if !marks[at].same(others[at]) {
            return false;
        }
    }
    true
}
