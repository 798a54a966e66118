//! The summary of a sample under its reviewers' decisions.

ghost use Rattle.std.specs.Prelude.{decimal};
ghost use Rattle.redl_io.specs.Sink.{Puts};
ghost use Rattle.redl_sample.specs.Summaries.{line, number_line, summary_text, tally_text};

use crate::tally::Tally;
use itoa::Buffer;
use redl_io::{Failed, Sink, put_pieces};
use redl_journal::digest_digits;

/// What becomes of a sample under the decisions of its reviewers.
#[derive(Clone, Copy, Debug, PartialEq, Eq)]
pub struct SampleSummary {
    /// The number of blocks that the sample was made with.
    pub paragraphs: u32,
    /// How many revisions its package has.
    pub revisions: u32,
    /// How many entries the reviewers' journals have together, each counted once.
    pub entries: u64,
    /// How many of its revisions have each verdict.
    pub verdicts: Tally,
    /// The number of bytes of the written package.
    pub bytes: usize,
    /// The SHA-256 of these bytes.
    pub digest: [u8; 32],
}

impl SampleSummary {
    /// Puts the nine lines of the summary, each a name, a space and a value. `Failed` means that the sink failed and has
    /// only a prefix of them.
    pub fn write<K: Sink>(&self, out: &mut K) -> Result<(), Failed>
        ensures { Puts K.told K.faults K.settled K.lenders out.old out.new (summary_text self.now) result }
    {
        write_number(b"paragraphs", self.paragraphs as u64, out)?;
        write_number(b"revisions", self.revisions as u64, out)?;
        write_number(b"entries", self.entries, out)?;
        write_tally(&self.verdicts, out)?;
        write_number(b"bytes", self.bytes as u64, out)?;
        write_line(b"sha256", &digest_digits(&self.digest), out)
    }
}

// Puts the lines of a tally.
fn write_tally<K: Sink>(tally: &Tally, out: &mut K) -> Result<(), Failed>
    ensures { Puts K.told K.faults K.settled K.lenders out.old out.new (tally_text tally.now) result }
{
    write_number(b"accepted", tally.accepted as u64, out)?;
    write_number(b"rejected", tally.rejected as u64, out)?;
    write_number(b"disputed", tally.disputed as u64, out)?;
    write_number(b"open", tally.undecided as u64, out)
}

// Puts the line of a number.
fn write_number<K: Sink>(name: &[u8], number: u64, out: &mut K) -> Result<(), Failed>
    ensures { Puts K.told K.faults K.settled K.lenders out.old out.new (number_line name.now number) result }
{
    let mut buffer = Buffer::new();
    write_line(name, buffer.format(number).as_bytes(), out)
}

// Puts the name, a space, the value and a newline.
#[tactic(auto, unfolding(crate::specs::Summaries::line))]
fn write_line<'a, K: Sink>(name: &'a [u8], value: &'a [u8], out: &mut K) -> Result<(), Failed>
    ensures { Puts K.told K.faults K.settled K.lenders out.old out.new (line name.now value.now) result }
{
    put_pieces(&[name, b" ", value, b"\n"], out)
}
