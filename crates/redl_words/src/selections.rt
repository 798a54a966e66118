//! The texts of selections.

ghost use Rattle.std.specs.Prelude.{◌≡◌, IfErr, option_map};
ghost use Rattle.redl_reading.specs.Steps.{Gives};
ghost use Rattle.redl_reading.specs.Lists.{field_at};
ghost use Rattle.redl_kinds.specs.KindNames.{kind_named};
ghost use Rattle.redl_journal.specs.Reading.{number_in};
ghost use Rattle.redl_kinds.specs.declared.selection.Listed.{Listed};
ghost use Rattle.redl_kinds.specs.Selections.{group};
ghost use Rattle.redl_kinds.specs.Views.{selection_of};
ghost use Rattle.redl_words.specs.Reading.Answers.{Finds};
ghost use Rattle.redl_words.specs.Reading.Selections.{group_named, item_in, kinds_in, labelled, moments_in, numbers_in, range_in, selection_in, span_in, unlabelled};

use crate::error::WordsError;
use redl_io::Text;
use redl_journal::read_number;
use redl_kinds::{Group, Listed, RevKind, Selection};
use redl_stamp::read_moment;
use std::alloc::Global;

/// The selection that a text means.
#[tactic(auto, unfolding(crate::specs::Reading::Selections::selection_in))]
pub(crate) fn read_selection(alloc: Global, text: &str) -> Result<Selection, WordsError>
    ensures { Finds selection_of result (selection_in text.now) }
{
    match split_label(text) {
        Some((label, value)) => read_labelled(alloc, label, value),
        None => read_unlabelled(text),
    }
}

// The label before the first colon, and the value behind it.
fn split_label(text: &str) -> Option<(&str, &str)>
    ensures { Gives (λ x. (x.0.now, x.1.now)) result (field_at 58 text.now) }
{
    text.split_once(':')
}

// The date before the first slash, and the one behind it.
fn split_dates(text: &str) -> Option<(&str, &str)>
    ensures { Gives (λ x. (x.0.now, x.1.now)) result (field_at 47 text.now) }
{
    text.split_once('/')
}

// The selection without a label.
fn read_unlabelled(text: &str) -> Result<Selection, WordsError>
    ensures found { Finds selection_of result (unlabelled text.now) }
    ensures cause { IfErr result (λ error. error ≡ WordsError.Usage) }
{
    if text.as_bytes() == b"all".as_slice() {
        Ok(Selection::All)
    } else {
        Err(WordsError::Usage)
    }
}

// The selection with this label and this value.
#[tactic(auto, unfolding(crate::specs::Reading::Selections::labelled))]
fn read_labelled(alloc: Global, label: &str, value: &str) -> Result<Selection, WordsError>
    ensures { Finds selection_of result (labelled label.now value.now) }
{
    let label = label.as_bytes();
    if label == b"numbers".as_slice() {
        let listed = read_numbers(alloc, value)?;
        Ok(Selection::Numbers(listed))
    } else if label == b"author".as_slice() {
        let name = Text::copy_of(alloc, value.as_bytes())?;
        Ok(Selection::Author(name))
    } else if label == b"kind".as_slice() {
        read_kind(value)
    } else if label == b"span".as_slice() {
        read_span(value)
    } else if label == b"edit".as_slice() {
        let listed = read_numbers(alloc, value)?;
        Ok(Selection::Edits(listed))
    } else {
        Err(WordsError::Usage)
    }
}

// The items with commas between.
fn read_numbers(alloc: Global, text: &str) -> Result<Vec<Listed>, WordsError>
    ensures { Finds (λ listed. listed.items) result (numbers_in text.now) }
{
    let mut listed = Vec::new(alloc);
    for piece in text.split(',') {
        let Some(item) = read_item(piece) else {
            return Err(WordsError::Usage);
        };
        listed.push(item)?;
    }
    Ok(listed)
}

// A number, or two with a dash between.
#[tactic(auto, unfolding(crate::specs::Reading::Selections::item_in))]
fn read_item(text: &str) -> Option<Listed>
    ensures { result ≡ item_in text.now }
{
    match split_ends(text) {
        Some((first, last)) => read_range(first, last),
        None => read_one(text),
    }
}

// The number before the first dash, and the one behind it.
fn split_ends(text: &str) -> Option<(&str, &str)>
    ensures { Gives (λ x. (x.0.now, x.1.now)) result (field_at 45 text.now) }
{
    text.split_once('-')
}

// A number alone.
fn read_one(digits: &str) -> Option<Listed>
    ensures { result ≡ option_map Listed.One (number_in digits.now) }
{
    match read_number(digits.as_bytes()) {
        Some(number) => Some(Listed::One(number)),
        None => None,
    }
}

// The range from the first number to the last. There is none where the first is the greater one.
#[tactic(auto, unfolding(crate::specs::Reading::Selections::range_in))]
fn read_range(first: &str, last: &str) -> Option<Listed>
    ensures { result ≡ range_in first.now last.now }
{
    let first = read_number(first.as_bytes())?;
    let last = read_number(last.as_bytes())?;
    if first > last {
        return None;
    }
    Some(Listed::Range(first, last))
}

/// The kind with this name.
pub(crate) fn read_kind_name(name: &str) -> Option<RevKind>
    ensures { result ≡ kind_named name.now }
{
    RevKind::named(name.as_bytes())
}

// The revisions of the kind, or of the kinds of the group, with this name.
fn read_kind(name: &str) -> Result<Selection, WordsError>
    ensures found { Finds selection_of result (kinds_in name.now) }
    ensures cause { IfErr result (λ error. error ≡ WordsError.Usage) }
{
    match read_kind_name(name) {
        Some(kind) => Ok(Selection::Kind(kind)),
        None => read_group(name),
    }
}

// The revisions of the kinds of the group with this name.
fn read_group(name: &str) -> Result<Selection, WordsError>
    ensures found { Finds selection_of result (option_map group (group_named name.now)) }
    ensures cause { IfErr result (λ error. error ≡ WordsError.Usage) }
{
    match read_group_name(name.as_bytes()) {
        Some(group) => Ok(Selection::Group(group)),
        None => Err(WordsError::Usage),
    }
}

// The group with this name.
#[tactic(auto, unfolding(crate::specs::Reading::Selections::group_named))]
fn read_group_name(name: &[u8]) -> Option<Group>
    ensures { result ≡ group_named name.now }
{
    if name == b"content".as_slice() {
        Some(Group::Content)
    } else if name == b"marks".as_slice() {
        Some(Group::Marks)
    } else if name == b"rows".as_slice() {
        Some(Group::Rows)
    } else if name == b"cells".as_slice() {
        Some(Group::Cells)
    } else if name == b"props".as_slice() {
        Some(Group::Props)
    } else {
        None
    }
}

// The span between two dates with a slash between.
fn read_span(text: &str) -> Result<Selection, WordsError>
    ensures found { Finds selection_of result (span_in text.now) }
    ensures cause { IfErr result (λ error. error ≡ WordsError.Usage) }
{
    match read_moments(text) {
        Some((start, end)) => Ok(Selection::Span(start, end)),
        None => Err(WordsError::Usage),
    }
}

/// The moments of two dates with a slash between.
#[tactic(auto, unfolding(crate::specs::Reading::Selections::moments_in))]
pub(crate) fn read_moments(text: &str) -> Option<(i64, i64)>
    ensures { result ≡ moments_in text.now }
{
    let (first, second) = split_dates(text)?;
    let start = read_moment(first)?;
    let end = read_moment(second)?;
    Some((start, end))
}
