//! A whole package whose revisions are all set.

use crate::open::open;
use crate::setting::set;
use redl_editor::{Change, Editor};
use redl_io::{Failed, Sink, Staged};
use redl_tree::Say;
use std::alloc::{AllocError, Global};

/// How the revisions of a package are set.
#[derive(Clone, Copy, Debug, PartialEq, Eq)]
pub(crate) enum Way {
    /// None is.
    Undecided,
    /// All are accepted, as one list.
    AtOnce,
    /// Each is accepted by itself, in their order.
    OneByOne,
}

impl Way {
    /// The way of this name.
    pub(crate) fn named(name: &str) -> Option<Way> {
        match name {
            "undecided" => Some(Way::Undecided),
            "at-once" => Some(Way::AtOnce),
            "one-by-one" => Some(Way::OneByOne),
            _ => None,
        }
    }
}

/// Writes the document of the package with this text, once its revisions are set in this way: nothing where the text is no package.
/// `Err` means out of memory, or that the output failed.
pub(crate) fn write_whole<K: Sink>(
    alloc: Global,
    way: Way,
    text: &[u8],
    out: &mut K,
) -> Result<(), Stopped> {
    if let Some(mut editor) = open(alloc, text)? {
        set_all(alloc, way, &mut editor)?;
        write_staged(&editor, out)?;
    }
    Ok(())
}

fn set_all(alloc: Global, way: Way, editor: &mut Editor) -> Result<(), AllocError> {
    match way {
        Way::Undecided => Ok(()),
        Way::AtOnce => set(editor, &acceptances(alloc, editor)?),
        Way::OneByOne => acceptances(alloc, editor)?
            .iter()
            .try_for_each(|change| set(editor, &[*change])),
    }
}

// That each revision is accepted, in their order.
fn acceptances(alloc: Global, editor: &Editor) -> Result<Vec<Change>, AllocError> {
    let mut changes = Vec::new(alloc);
    // There are fewer than 2^32 revisions.
    let count = u32::try_from(editor.says().len()).unwrap_or(u32::MAX);
    for rev in 1..=count {
        changes.push(Change {
            rev,
            say: Say::Accept,
        })?;
    }
    Ok(changes)
}

// Writes the document through a stage, as `redline` writes, so that both can be compared.
fn write_staged<K: Sink>(editor: &Editor, out: &mut K) -> Result<(), Failed> {
    let mut staged = Staged::new(out);
    editor.write(&mut staged)?;
    staged.finish()
}

/// Why a package was not written.
#[derive(Clone, Copy, Debug, PartialEq, Eq)]
pub(crate) enum Stopped {
    /// An allocation failed.
    NoMemory,
    /// The output took no more bytes.
    OutputFailed,
}

impl From<AllocError> for Stopped {
    fn from(_error: AllocError) -> Stopped {
        Stopped::NoMemory
    }
}

impl From<Failed> for Stopped {
    fn from(_error: Failed) -> Stopped {
        Stopped::OutputFailed
    }
}
