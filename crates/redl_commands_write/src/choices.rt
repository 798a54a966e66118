//! The entries that a reviewer's choices make.

ghost use Rattle.std.specs.Prelude.{◌≡◌, ◌≤◌, ◌∷◌, ℕ, Some, All, IfOk, OnOk, fold, map, if◌then◌else◌};
ghost use Rattle.std.specs.BTreeMap.{get, keys};
ghost use Rattle.std.specs.BTreeSet.{insert_key};
ghost use Rattle.std.specs.Ordering.{nat_cmp};
ghost use Rattle.std.specs.Option.{option_map};
ghost use Rattle.std.specs.List.{filter_map, list_any};
ghost use Rattle.redl_commands.specs.Choices.{ask_edits, chosen_entries, chosen_numbers, entry_with, is_among, word_on};
ghost use Rattle.redl_journal.specs.Journals.{IsAllowed, IsReviewer};
ghost use Rattle.redl_edits.specs.Edits.{package_edits};
ghost use Rattle.redl_kinds.specs.Views.{selection_of};
ghost use Rattle.redl_select.specs.Selections.{asks_edits};
ghost use Rattle.redl_words.specs.Views.{choices_view};

use redl_commands::edits_if;
use redl_index::Index;
use redl_io::Text;
use redl_journal::{Entry, Word};
use redl_kinds::Selection;
use redl_select::{asks_edits, choose};
use redl_session::Session;
use std::alloc::{AllocError, Global};
use std::collections::BTreeMap;

/// The entries of this reviewer on what the choices choose, each with the word of the last choice that chooses it, and all
/// with this rank and this sequence number. `Err` means out of memory.
pub fn choose_entries(
    alloc: Global,
    session: &Session<'_>,
    reviewer: &Text,
    rank: u8,
    seq: u32,
    choices: &[(Word, Selection)],
) -> Result<Vec<Entry>, AllocError>
    requires reviewer { IsReviewer reviewer.now }
    requires rank { rank ≤ 9 }
    requires seq { 1 ≤ seq }
    ensures entries { IfOk result (λ entries. entries.items ≡ chosen_entries reviewer.now rank seq session.now.revisions (package_edits session.now.nodes session.now.revisions) (choices_view choices.now)) }
    ensures allowed { IfOk result (λ entries. All IsAllowed entries.items) }
{
    let edits = edits_if(alloc, ask_edits(choices), session)?;
    let words = words_of(alloc, session.index(), &edits, choices)?;
    make_entries(alloc, reviewer, rank, seq, &words)
}

// Whether some choice depends on edits.
fn ask_edits(choices: &[(Word, Selection)]) -> bool
    ensures { result ≡ ask_edits (choices_view choices.now) }
{
    any_asks(choices)
}

fn any_asks(choices: &[(Word, Selection)]) -> bool
    ensures { result ≡ list_any (λ choice. asks_edits (selection_of choice.1)) choices.now }
{
    choices.iter().any(|choice| asks_edits(&choice.1))
}

// The word on each number that some choice chooses.
fn words_of(
    alloc: Global,
    index: &Index,
    edits: &[u32],
    choices: &[(Word, Selection)],
) -> Result<BTreeMap<u32, Word>, AllocError>
    ensures numbers { IfOk result (λ words. keys words ≡ chosen_numbers index.now edits.now (choices_view choices.now)) }
    ensures words { IfOk result (λ words. (number : ℕ) → get nat_cmp words number ≡ word_on index.now edits.now (choices_view choices.now) number) }
{
    let mut words = BTreeMap::new(alloc);
    for (word, selection) in choices {
        let numbers = choose(alloc, index, edits, selection)?;
        set_words(&mut words, &numbers, *word)?;
    }
    Ok(words)
}

// Gives these numbers the word, in place of the ones that they have.
fn set_words(words: &mut BTreeMap<u32, Word>, numbers: &[u32], word: Word) -> Result<(), AllocError>
    ensures numbers { OnOk result (keys words.new ≡ fold (insert_key nat_cmp) (keys words.old) numbers.now) }
    ensures words { OnOk result ((number : ℕ) → get nat_cmp words.new number
        ≡ (if is_among numbers.now number then Some word else get nat_cmp words.old number)) }
{
    for number in numbers {
        words.insert(*number, word)?;
    }
    Ok(())
}

// The reviewer's entries with these words.
fn make_entries(
    alloc: Global,
    reviewer: &Text,
    rank: u8,
    seq: u32,
    words: &BTreeMap<u32, Word>,
) -> Result<Vec<Entry>, AllocError>
    requires reviewer { IsReviewer reviewer.now }
    requires rank { rank ≤ 9 }
    requires seq { 1 ≤ seq }
    ensures entries { IfOk result (λ entries. entries.items
        ≡ filter_map (λ number. option_map (entry_with reviewer.now rank seq number) (get nat_cmp words.now number)) (keys words.now)) }
    ensures allowed { IfOk result (λ entries. All IsAllowed entries.items) }
{
    let mut entries = Vec::new(alloc);
    for (rev, word) in words {
        entries.push(Entry {
            reviewer: reviewer.copy(alloc)?,
            seq,
            rev: *rev,
            word: *word,
            rank,
        })?;
    }
    Ok(entries)
}
