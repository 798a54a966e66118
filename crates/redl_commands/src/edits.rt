//! The edits of a session's revisions, where a selection depends on them.

ghost use Rattle.std.specs.Prelude.{◌≡◌, IfOk, [], if◌then◌else◌};
ghost use Rattle.redl_edits.specs.Edits.{package_edits};

use redl_edits::edits_of;
use redl_session::Session;
use std::alloc::{AllocError, Global};

/// The edit of each revision of a session, in the order of their numbers, where they are asked for, and else none. `Err` means out of
/// memory.
pub fn edits_if(alloc: Global, asked: bool, session: &Session<'_>) -> Result<Vec<u32>, AllocError>
    ensures { IfOk result (λ edits. edits.items ≡ if asked then package_edits session.now.nodes session.now.revisions else []) }
{
    if !asked {
        return Ok(Vec::new(alloc));
    }
    let edits = edits_of(alloc, session.package(), session.index())?;
    Ok(edits)
}
