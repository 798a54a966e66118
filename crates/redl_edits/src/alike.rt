//! Which revisions may be of one act of an editor.

ghost use Rattle.std.specs.Prelude.{◌≡◌, ◌+ℤ◌, int_le, pos};
ghost use Rattle.std.specs.Option.{option_copied};
ghost use Rattle.redl_edits.specs.Alike.{are_alike, are_alike_at, are_near, is_change_at, revision_at};

use redl_index::{Index, Revision};
use redl_kinds::RevKind;

/// Whether the revisions with these numbers are there, and are alike.
pub(crate) fn are_alike_at(index: &Index, one: u32, two: u32) -> bool
    ensures { result ≡ are_alike_at index.now one two }
{
    let Some(one) = revision_at(index, one) else {
        return false;
    };
    let Some(two) = revision_at(index, two) else {
        return false;
    };
    are_alike(one, two)
}

/// Whether the revision with this number is a change of properties.
pub(crate) fn is_change_at(index: &Index, number: u32) -> bool
    ensures { result ≡ is_change_at index.now number }
{
    let Some(revision) = revision_at(index, number) else {
        return false;
    };
    matches!(revision.kind, RevKind::Change(_))
}

/// The revision with this number.
pub(crate) fn revision_at(index: &Index, number: u32) -> Option<&Revision>
    ensures { option_copied result ≡ revision_at index.now number }
{
    index.get(number)
}

fn are_alike(one: &Revision, two: &Revision) -> bool
    ensures { result ≡ are_alike one.now two.now }
{
    one.author.as_bytes() == two.author.as_bytes() && are_near(one.seconds, two.seconds)
}

fn are_near(one: Option<i64>, two: Option<i64>) -> bool
    ensures { result ≡ are_near one two }
{
    match (one, two) {
        (None, None) => true,
        (Some(one), Some(two)) => is_by_minute(one, two) && is_by_minute(two, one),
        _ => false,
    }
}

// Whether the one moment is at most a minute after the other.
fn is_by_minute(one: i64, two: i64) -> bool
    ensures { result ≡ int_le one (two +ℤ pos 60) }
{
    match two.checked_add(60) {
        Some(last) => one <= last,
        None => true,
    }
}
