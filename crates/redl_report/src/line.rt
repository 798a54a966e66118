//! Lines of a report.

ghost use Rattle.std.specs.Prelude.{◌≡◌, ◌<◌, [], IfOk};
ghost use Rattle.redl_report.specs.Reports.{line_of};
ghost use Rattle.redl_report.specs.Counts.{counts_any, sum_of, with_verdict};

use redl_formats::Item;
use redl_io::Text;
use redl_join::Verdict;
use redl_kinds::RevKind;
use std::alloc::{AllocError, Global};

/// Whom a line of a report is about.
#[derive(Clone, Copy, Debug, PartialEq, Eq)]
pub enum Role {
    /// Somebody who decided on revisions.
    Reviewer,
    /// Somebody who made revisions.
    Author,
    /// Somebody who made revisions, of which this kind alone is counted.
    Kind(RevKind),
}

/// Where somebody stands. A reviewer's line counts the revisions on which they have an entry, by their own words, and an
/// author's line counts their revisions, or those of one kind, by the verdicts on them.
#[derive(Drop)]
pub struct ReportLine {
    /// Whom the line is about.
    pub role: Role,
    /// Their name.
    pub who: Text,
    /// How many revisions are accepted.
    pub accept: u32,
    /// How many are rejected.
    pub reject: u32,
    /// On how many the words that count differ.
    pub disputed: u32,
    /// On how many no word counts.
    pub undecided: u32,
}

impl ReportLine {
    /// The line of somebody without revisions. `Err` means out of memory.
    pub(crate) fn blank(alloc: Global, role: Role, name: &[u8]) -> Result<ReportLine, AllocError>
        ensures { IfOk result (λ line. line ≡ line_of role name.now []) }
    {
        let who = Text::copy_of(alloc, name)?;
        Ok(ReportLine {
            role,
            who,
            accept: 0,
            reject: 0,
            disputed: 0,
            undecided: 0,
        })
    }

    /// Counts a revision on which this was decided.
    pub(crate) fn count(&mut self, verdict: Verdict)
        requires { sum_of self.old < u32.MAX }
        ensures { self.new ≡ with_verdict self.old verdict }
    {
        match verdict {
            Verdict::Undecided => self.undecided += 1,
            Verdict::Accept => self.accept += 1,
            Verdict::Reject => self.reject += 1,
            Verdict::Disputed => self.disputed += 1,
        }
    }

    /// Whether any revision is counted.
    pub(crate) fn counts_any(&self) -> bool
        ensures { result ≡ counts_any self.now }
    {
        0 < self.accept || 0 < self.reject || 0 < self.disputed || 0 < self.undecided
    }
}

impl Item for ReportLine {
    ghost use Rattle.redl_report.specs.Counts.{IsLine};

    ghost is_item = { IsLine };

    fn copy(&self, alloc: Global) -> Result<ReportLine, AllocError> {
        let who = self.who.copy(alloc)?;
        Ok(ReportLine {
            role: self.role,
            who,
            accept: self.accept,
            reject: self.reject,
            disputed: self.disputed,
            undecided: self.undecided,
        })
    }
}
