//! Threads: which comment a comment replies to, and whether it is done.

ghost use Rattle.std.specs.Prelude.{◌≡◌, ℕ, List, IfOk};
ghost use Rattle.std.specs.Option.{option_map};
ghost use Rattle.redl_comments.specs.Threads.{any_done, done_at, done_if, is_done, last_paragraphs, own_state, parent_at, parent_by, place_from, state_paragraphs, threads_of};
ghost use Rattle.redl_comments.specs.Firsts.{place_at};

use crate::comment::Comment;
use crate::firsts::Firsts;
use crate::state::State;
use redl_io::Text;
use std::alloc::{AllocError, Global};
use std::marker::Model;

/// How many comments of a thread are looked at.
const LONGEST_THREAD: usize = 100;

/// The threads of some comments, which are known by their places in their part, from 0.
#[derive(Drop)]
pub struct Threads {
    // Of each comment, the one that it replies to.
    parents: Vec<Option<usize>>,
    // Of each comment, whether it is itself said to be done.
    done: Vec<bool>,
}

impl Model for Threads {
    ghost use Rattle.redl_comments.specs.Threads.{Threads as Said};

    ghost Value = { Said };

    ghost view = { λ threads. record { parents = threads.parents.items; done = threads.done.items } };
}

impl Threads {
    /// The comment that the one at this place replies to, if it replies to one.
    pub fn parent(&self, place: usize) -> Option<usize>
        ensures { result ≡ parent_at self.now place }
    {
        match self.parents.get(place) {
            Some(parent) => *parent,
            None => None,
        }
    }

    /// Whether the comment at this place is done, or replies to one that is.
    pub fn is_done(&self, place: usize) -> bool
        ensures { result ≡ is_done self.now place }
    {
        self.any_done(LONGEST_THREAD, Some(place))
    }

    // Whether one of the next comments of a thread, so many, is itself said to be done, of which the first has this place.
    fn any_done(&self, count: usize, place: Option<usize>) -> bool
        ensures { result ≡ any_done count self.now place }
    {
        let mut next = place;
        for _ in 0..count {
            let Some(place) = next else {
                return false;
            };
            if self.done_at(place) {
                return true;
            }
            next = self.parent(place);
        }
        false
    }

    fn done_at(&self, place: usize) -> bool
        ensures { result ≡ done_at self.now place }
    {
        match self.done.get(place) {
            Some(done) => *done,
            None => false,
        }
    }
}

/// The threads of comments with these states. `Err` means out of memory, here and below.
pub fn threads_of(
    alloc: Global,
    comments: &[Comment],
    states: &[State],
) -> Result<Threads, AllocError>
    ensures { IfOk result (λ threads. threads ≡ threads_of comments.now states.now) }
{
    let ends = last_paragraphs(alloc, comments)?;
    let paragraphs = state_paragraphs(alloc, states)?;
    let by_end = Firsts::of(alloc, &ends)?;
    let by_paragraph = Firsts::of(alloc, &paragraphs)?;
    let mut parents = Vec::new(alloc);
    let mut done = Vec::new(alloc);
    for comment in comments {
        let state = own_state(states, &by_paragraph, comment);
        parents.push(parent_by(&by_end, state))?;
        done.push(done_if(state))?;
    }
    Ok(Threads { parents, done })
}

fn last_paragraphs(alloc: Global, comments: &[Comment]) -> Result<Vec<Text>, AllocError>
    ensures { IfOk result (λ keys. keys.items ≡ last_paragraphs comments.now) }
{
    let mut keys = Vec::new(alloc);
    for comment in comments {
        keys.push(comment.last_paragraph.copy(alloc)?)?;
    }
    Ok(keys)
}

fn state_paragraphs(alloc: Global, states: &[State]) -> Result<Vec<Text>, AllocError>
    ensures { IfOk result (λ keys. keys.items ≡ state_paragraphs states.now) }
{
    let mut keys = Vec::new(alloc);
    for state in states {
        keys.push(state.paragraph.copy(alloc)?)?;
    }
    Ok(keys)
}

// The state of a comment, where these are the places of the paragraphs of states.
fn own_state<'s>(
    states: &'s [State],
    by_paragraph: &Firsts<'_>,
    comment: &Comment,
) -> Option<&'s State>
    requires { (key : List ℕ) → place_at by_paragraph.now key ≡ place_from 0 (state_paragraphs states.now) key }
    ensures { option_map (λ state. state.now) result ≡ own_state states.now comment.now }
{
    let place = by_paragraph.place(comment.last_paragraph.as_bytes())?;
    states.get(place)
}

// The comment that one with this state replies to, where these are the places of the last paragraphs of comments.
fn parent_by(by_end: &Firsts<'_>, state: Option<&State>) -> Option<usize>
    ensures { (ends : List (List ℕ)) → ((key : List ℕ) → place_at by_end.now key ≡ place_from 0 ends key) → result ≡ parent_by ends (option_map (λ state. state.now) state.entry) }
{
    by_end.place(state?.parent.as_bytes())
}

fn done_if(state: Option<&State>) -> bool
    ensures { result ≡ done_if (option_map (λ state. state.now) state.entry) }
{
    match state {
        Some(state) => state.is_done,
        None => false,
    }
}
