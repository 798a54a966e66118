//! `sample N`: makes a sample of so many paragraphs, runs its journals through a session, and sums up what they come to.

ghost use Rattle.std.specs.Prelude.{◌≡◌, ◌≤◌, ℕ, List, [], None, IfOk, OnOk};
ghost use Rattle.redl_commands.specs.Sample.{reviewers_entries, sampled, summarized, summary_of};
ghost use Rattle.redl_commands.specs.Write.{left_text};
ghost use Rattle.redl_commands.specs.Views.{writing_view};
ghost use Rattle.redl_index.specs.Numbers.{numbered_package};
ghost use Rattle.redl_index.specs.Revisions.{revisions_of};
ghost use Rattle.redl_inputs.specs.Admission.{no_admission};
ghost use Rattle.redl_inputs.specs.Reading.{Reads};
ghost use Rattle.redl_inputs.specs.Views.{result_view};
ghost use Rattle.redl_rules.specs.Attributes.{broken_rule};
ghost use Rattle.redl_session.specs.Sessions.{after};
ghost use Rattle.redl_tree.specs.Revisions.Labels.{unlabelled};

use redl_commands::{Collected, Output, Writing};
use redl_index::Surveyed;
use redl_inputs::read_package;
use redl_lines::{Cause, Failure, Limit};
use redl_live_session::{LiveSession, admit_each};
use redl_sample::{SAMPLE_LIMIT, SampleSummary, Tally, sample_journal, sample_package};
use redl_session::Locks;
use sha2::{Digest, Sha256};
use std::alloc::{AllocError, Global};

// How many reviewers have a journal on the sample.
const REVIEWERS: u32 = 3;

/// The summary of the sample with so many paragraphs under the journals of its reviewers.
pub fn make_sample<'a, 'b>(alloc: Global, number: u32) -> Result<Writing<'b>, Failure<'a>>
    ensures { Reads (result_view writing_view result) (λ reader. sampled reader number) }
{
    if number > SAMPLE_LIMIT {
        return Err(Failure::Cause(Cause::Limit(Limit::Sample)));
    }
    let bytes = sample_package(alloc, number)?;
    let package = read_package(alloc, &bytes)?;
    Ok(summarize(alloc, number, package)?)
}

// The summary of the sample, which is this package. Its text does not matter.
fn summarize<'b>(alloc: Global, number: u32, pkg: Surveyed) -> Result<Writing<'b>, AllocError>
    requires number { number ≤ SAMPLE_LIMIT }
    requires sound { broken_rule pkg ≡ None }
    requires unlabelled { unlabelled pkg ≡ pkg }
    ensures { IfOk result (λ writing. (whole : List ℕ) → writing_view writing ≡ summarized number (no_admission whole pkg.entry [])) }
{
    let session = begin(alloc, pkg)?;
    let summary = summary_after(alloc, number, session)?;
    Ok(Writing::only(alloc, Output::Summary(summary)))
}

// What a session over the sample comes to after the entries of the reviewers' journals. It goes.
fn summary_after(
    alloc: Global,
    number: u32,
    begun: LiveSession,
) -> Result<SampleSummary, AllocError>
    requires { number ≤ SAMPLE_LIMIT }
    ensures { IfOk result (λ summary. summary ≡ summary_of number (after begun.entry (reviewers_entries number))) }
{
    let mut session = begun;
    admit_reviewers(alloc, number, &mut session)?;
    summary_of(alloc, number, &session)
}

// A session over the package, before any entry.
fn begin(alloc: Global, pkg: Surveyed) -> Result<LiveSession, AllocError>
    requires sound { broken_rule pkg ≡ None }
    requires unlabelled { unlabelled pkg ≡ pkg }
    ensures { IfOk result (λ session. session ≡ record { nodes = numbered_package pkg.entry; revisions = revisions_of pkg.entry; locks = []; book = [] }) }
{
    let numbered = pkg.into_numbered(alloc)?;
    let no_locks = Locks::new(Vec::new(alloc));
    LiveSession::start(alloc, numbered.pkg, numbered.index, no_locks)
}

// Admits the entries of the reviewers' journals. The document follows each entry.
fn admit_reviewers(alloc: Global, number: u32, session: &mut LiveSession) -> Result<(), AllocError>
    requires { number ≤ SAMPLE_LIMIT }
    ensures { OnOk result (session.new ≡ after session.old (reviewers_entries number)) }
{
    for reviewer in 0..REVIEWERS {
        let journal = sample_journal(alloc, number, reviewer)?;
        admit_each(session, journal.entries)?;
    }
    Ok(())
}

// What a session over the sample comes to.
fn summary_of(
    alloc: Global,
    number: u32,
    session: &LiveSession,
) -> Result<SampleSummary, AllocError>
    ensures { IfOk result (λ summary. summary ≡ summary_of number session.now) }
{
    let verdicts = session.verdicts()?;
    let written = written_text(alloc, session)?;
    Ok(SampleSummary {
        paragraphs: number,
        revisions: session.index().count(),
        entries: session.book().len(),
        verdicts: Tally::of(&verdicts),
        bytes: written.len(),
        digest: Sha256::digest(&written),
    })
}

// The text of the document as it is at present.
fn written_text(alloc: Global, session: &LiveSession) -> Result<Vec<u8>, AllocError>
    ensures { IfOk result (λ bytes. bytes.items ≡ left_text session.now) }
{
    let mut written = Collected::new(alloc);
    match session.write(&mut written) {
        Ok(()) => Ok(written.bytes),
        Err(_) => Err(AllocError),
    }
}
