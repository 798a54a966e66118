//! Which revisions a listing shows.

ghost use Rattle.std.specs.Prelude.{◌≡◌, IfOk, length};
ghost use Rattle.std.specs.List.{list_all, list_any};
ghost use Rattle.redl_commands_shown.specs.Shown.{ask_edits, asks, is_same_verdict, shown_revisions, shows};
ghost use Rattle.redl_words.specs.Views.{only_of, onlys_view};

use redl_index::Revision;
use redl_join::Verdict;
use redl_select::{asks_edits, chooses};
use redl_words::Only;
use std::alloc::{AllocError, Global};

/// Whether each revision is shown by all that is wanted, in the order of the numbers. `Err` means out of memory.
///
/// `edits` has the edit of each revision in the order of their numbers.
pub fn shown_revisions(
    alloc: Global,
    edits: &[u32],
    wanted: &[Only],
    revisions: &[Revision],
    verdicts: &[Verdict],
) -> Result<Vec<bool>, AllocError>
    requires { length verdicts.now ≡ length revisions.now }
    ensures { IfOk result (λ shown. shown.items ≡ shown_revisions edits.now (onlys_view wanted.now) revisions.now verdicts.now) }
{
    let mut shown = Vec::new(alloc);
    for place in 0..revisions.len() {
        shown.push(is_shown(edits, wanted, &revisions[place], verdicts[place]))?;
    }
    Ok(shown)
}

// Whether a revision with this verdict is shown by all that is wanted.
fn is_shown(edits: &[u32], wanted: &[Only], revision: &Revision, verdict: Verdict) -> bool
    ensures { result ≡ list_all (shows edits.now revision.now verdict) (onlys_view wanted.now) }
{
    shows_each(edits, wanted, revision, verdict)
}

fn shows_each(edits: &[u32], wanted: &[Only], revision: &Revision, verdict: Verdict) -> bool
    ensures { result ≡ list_all (λ only. shows edits.now revision.now verdict (only_of only)) wanted.now }
{
    wanted
        .iter()
        .all(|only| shows(edits, only, revision, verdict))
}

fn shows(edits: &[u32], only: &Only, revision: &Revision, verdict: Verdict) -> bool
    ensures { result ≡ shows edits.now revision.now verdict (only_of only.now) }
{
    match only {
        Only::Chosen(selection) => chooses(selection, edits, revision),
        Only::Decided(wanted) => is_same_verdict(verdict, *wanted),
    }
}

fn is_same_verdict(verdict: Verdict, wanted: Verdict) -> bool
    ensures { result ≡ is_same_verdict verdict wanted }
{
    verdict == wanted
}

/// Whether something that is wanted depends on edits.
pub fn ask_edits(wanted: &[Only]) -> bool
    ensures { result ≡ ask_edits (onlys_view wanted.now) }
{
    any_asks(wanted)
}

fn any_asks(wanted: &[Only]) -> bool
    ensures { result ≡ list_any (λ only. asks (only_of only)) wanted.now }
{
    wanted.iter().any(asks)
}

fn asks(only: &Only) -> bool
    ensures { result ≡ asks (only_of only.now) }
{
    match only {
        Only::Chosen(selection) => asks_edits(selection),
        Only::Decided(_) => false,
    }
}
