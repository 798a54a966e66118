//! The journals of the sample's reviewers.

ghost use Rattle.std.specs.Prelude.{◌≡◌, ◌<◌, ◌≤◌, All, IfOk};
ghost use Rattle.redl_journal.specs.Journals.{IsAllowed};
ghost use Rattle.redl_journal.specs.Views.{journal_of};
ghost use Rattle.redl_sample.specs.Journals.{sample_journal as journal_for};
ghost use Rattle.sha2.specs.Sha256.{sha256};

use crate::entries::make_entries;
use crate::make::{SAMPLE_LIMIT, sample_package};
use crate::revisions::count_revisions;
use redl_journal::Journal;
use sha2::{Digest, Sha256};
use std::alloc::{AllocError, Global};

/// The journal of this reviewer on the sample package with this number of blocks. The reviewers are Ann, Bob and Cy,
/// numbered from 0; the number is at most `SAMPLE_LIMIT`. `Err` means out of memory.
///
/// Its digest is that of the package, its count the package's number of revisions. Each entry may be admitted.
pub fn sample_journal(alloc: Global, number: u32, reviewer: u32) -> Result<Journal, AllocError>
    requires number { number ≤ SAMPLE_LIMIT }
    requires reviewer { reviewer < 3 }
    ensures journal { IfOk result (λ journal. journal_of journal ≡ journal_for number reviewer) }
    ensures allowed { IfOk result (λ journal. All IsAllowed journal.entries.items) }
{
    let bytes = sample_package(alloc, number)?;
    let count = count_revisions(number);
    let entries = make_entries(alloc, reviewer, count)?;
    Ok(Journal {
        digest: digest_of(&bytes),
        count,
        entries,
    })
}

// The SHA-256 of the bytes.
fn digest_of(bytes: &[u8]) -> [u8; 32]
    ensures { result ≡ sha256 bytes.now }
{
    Sha256::digest(bytes)
}
