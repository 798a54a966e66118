//! Says that are set.

ghost use Rattle.std.specs.Prelude.{◌≡◌, ℕ, [], map, IfOk, IsOk};
ghost use Rattle.redl_editor.specs.Changes.{setting_of, former_of, differ};
ghost use Rattle.redl_editor.specs.Holdings.{is_touched};
ghost use Rattle.redl_tree.specs.Leaves.Settings.{set_say, set_each};

use redl_tables::say_at;
use redl_tree::Say;
use std::alloc::{AllocError, Global};

/// A revision, and what is said of it from now on.
#[derive(Clone, Copy)]
pub struct Change {
    /// The revision. Numbers count from 1.
    pub rev: u32,
    /// What is said of it.
    pub say: Say,
}

/// What is said at present of those revisions that the changes may give another say. `Err` means out of memory.
pub(crate) fn former_says(
    alloc: Global,
    says: &[Say],
    changes: &[Change],
) -> Result<Vec<Change>, AllocError>
    ensures former { IfOk result (λ former. map setting_of former.items ≡ former_of says.now (map setting_of changes.now)) }
    ensures own { former_of says.now (map setting_of changes.now) ≡ [] → IsOk result }
{
    let mut former = Vec::new(alloc);
    for change in changes {
        let say = say_at(says, change.rev);
        if say != change.say {
            former.push(Change {
                rev: change.rev,
                say,
            })?;
        }
    }
    Ok(former)
}

/// The revisions of which something else is said now than these former says. `Err` means out of memory.
pub(crate) fn changed(
    alloc: Global,
    says: &[Say],
    former: &[Change],
) -> Result<Vec<u32>, AllocError>
    ensures { IfOk result (λ revs. (rev : ℕ) → is_touched revs.items rev ≡ differ says.now (map setting_of former.now) rev) }
{
    let mut revs = Vec::new(alloc);
    for one in former {
        if say_at(says, one.rev) != one.say {
            revs.push(one.rev)?;
        }
    }
    Ok(revs)
}

/// Sets these says, one after the other.
pub(crate) fn put_says(says: &mut [Say], changes: &[Change])
    ensures { says.new ≡ set_each says.old (map setting_of changes.now) }
{
    for change in changes {
        put_say(says, change.rev, change.say);
    }
}

// Sets one say. Numbers of revisions begin with 1.
fn put_say(says: &mut [Say], rev: u32, say: Say)
    ensures { says.new ≡ set_say says.old rev say }
{
    if rev == 0 {
        return;
    }
    let at = rev as usize - 1;
    if at < says.len() {
        says[at] = say;
    }
}
