//! Says that a line sets.

use redl_editor::{Change, Editor};
use redl_tree::Say;
use std::alloc::{AllocError, Global};

/// The changes of a line: `accept 1; keep 2`. What is none is passed over.
pub(crate) fn changes_of(alloc: Global, line: &str) -> Result<Vec<Change>, AllocError> {
    let mut changes = Vec::new(alloc);
    for words in line.split(';') {
        if let Some(change) = change_of(words.trim()) {
            changes.push(change)?;
        }
    }
    Ok(changes)
}

fn change_of(words: &str) -> Option<Change> {
    let (word, number) = words.split_once(' ')?;
    let say = match word {
        "accept" => Say::Accept,
        "reject" => Say::Reject,
        "keep" => Say::Keep,
        _ => return None,
    };
    let rev = number.parse::<u32>().ok()?;
    Some(Change { rev, say })
}

/// Sets these says as one list. `Err` means out of memory, and nothing is changed.
pub(crate) fn set(editor: &mut Editor, changes: &[Change]) -> Result<(), AllocError> {
    match changes {
        [one] => editor.set(one.rev, one.say),
        _ => editor.set_many(changes),
    }
}
