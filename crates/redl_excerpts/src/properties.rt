//! What the changes of properties of a package change.

ghost use Rattle.std.specs.Prelude.{◌≡◌, IfOk, map};
ghost use Rattle.redl_excerpts.specs.Properties.{changed_lines, changed_words, changes_among, is_change};

use crate::{Excerpt, excerpts};
use redl_index::{Index, Revision};
use redl_io::Text;
use redl_kinds::RevKind;
use redl_opc::Package;
use std::alloc::{AllocError, Global};

/// What each revision of a numbered package changes, in one line of words, in the order of their numbers. The line of a revision
/// that is no change of properties has no bytes. `Err` means out of memory.
///
/// The index is that of the package. It goes over each story once, and makes excerpts of changes of properties alone.
pub fn changed_lines(alloc: Global, pkg: &Package, index: &Index) -> Result<Vec<Text>, AllocError>
    ensures { IfOk result (λ lines. lines.items ≡ changed_lines pkg.now index.now) }
{
    let changes = changes_among(alloc, index.revisions())?;
    let excerpts = excerpts(alloc, pkg, index, &changes)?;
    lines_of(alloc, &excerpts)
}

// Whether each revision is a change of properties.
fn changes_among(alloc: Global, revisions: &[Revision]) -> Result<Vec<bool>, AllocError>
    ensures { IfOk result (λ changes. changes.items ≡ changes_among revisions.now) }
{
    let mut changes = Vec::with_capacity(alloc, revisions.len())?;
    for revision in revisions {
        changes.push(is_change(revision.kind))?;
    }
    Ok(changes)
}

fn is_change(kind: RevKind) -> bool
    ensures { result ≡ is_change kind }
{
    matches!(kind, RevKind::Change(_))
}

fn lines_of(alloc: Global, excerpts: &[Option<Excerpt>]) -> Result<Vec<Text>, AllocError>
    ensures { IfOk result (λ lines. lines.items ≡ map changed_words excerpts.now) }
{
    let mut lines = Vec::with_capacity(alloc, excerpts.len())?;
    for excerpt in excerpts {
        lines.push(changed_words(alloc, excerpt)?)?;
    }
    Ok(lines)
}

// The words of an excerpt, if it is made.
fn changed_words(alloc: Global, excerpt: &Option<Excerpt>) -> Result<Text, AllocError>
    ensures { IfOk result (λ line. line ≡ changed_words excerpt.now) }
{
    match excerpt {
        Some(excerpt) => Text::copy_of(alloc, excerpt.changed.line.as_bytes()),
        None => Text::copy_of(alloc, b""),
    }
}
