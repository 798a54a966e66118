//! Entries that the document follows one by one.

ghost use Rattle.std.specs.Prelude.{◌≡◌, All, None, OnOk, OnErr};
ghost use Rattle.redl_journal.specs.Journals.{IsAllowed};
ghost use Rattle.redl_live_session.specs.Consistency.{StopsBefore};
ghost use Rattle.redl_session.specs.Refusals.{cause_of};
ghost use Rattle.redl_session.specs.Sessions.{after, after_entry};

use crate::live_session::LiveSession;
use redl_journal::Entry;
use redl_session::{AdmitError, Refusal};
use std::alloc::AllocError;

/// Admits these entries, one after another, and drops the refused ones. The editor has the say of each entry before the next one
/// comes; where only the last state is wanted, `LiveSession::admit_many` is faster.
///
/// `Err` means out of memory: the entries before one that would be admitted are in the session, and no later one. A refused entry
/// ends nothing.
pub fn admit_each(session: &mut LiveSession, entries: Vec<Entry>) -> Result<(), AllocError>
    requires { All IsAllowed entries.items }
    ensures after { OnOk result (session.new ≡ after session.old entries.items) }
    ensures stopped { OnErr result (StopsBefore session.old session.new entries.items) }
{
    for entry in entries {
        admit_or_drop(session, entry)?;
    }
    Ok(())
}

// Admits the entry, or drops it where it is refused. `Err` means out of memory, and nothing is changed.
fn admit_or_drop(session: &mut LiveSession, entry: Entry) -> Result<(), AllocError>
    requires { IsAllowed entry }
    ensures after { OnOk result (session.new ≡ after_entry session.old entry) }
    ensures untouched { OnErr result (session.new ≡ session.old) }
    ensures admitted { OnErr result (cause_of session.old.revisions session.old.locks entry ≡ None) }
{
    match session.admit(entry) {
        Ok(_) => Ok(()),
        Err(
            Refusal {
                why: AdmitError::NoMemory,
                ..
            },
        ) => Err(AllocError),
        Err(_) => Ok(()),
    }
}
