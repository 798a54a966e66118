//! How a call ends, and the status of each end.

ghost use Rattle.std.specs.Prelude.{◌≡◌};

use crate::Status;
use crate::failure::Failure;
use crate::misuse::Misuse;
use crate::remarks::Remarks;

/// How a command ends, with what its lines tell.
#[derive(Drop)]
pub enum End<'a> {
    /// All was written, with these remarks.
    Written(Remarks),
    /// The output failed; these are the remarks.
    Unwritten(Remarks),
    /// Nothing was written.
    Failed(Failure<'a>),
}

impl End<'_> {
    ghost use Rattle.redl_lines.specs.Ends.{end_status, end_view};

    /// The status of a call whose command ends so.
    pub(crate) fn status(&self) -> Status
        ensures { result ≡ end_status (end_view self.now) }
    {
        match self {
            End::Written(remarks) if remarks.are_none_refused() => Status::Done,
            End::Written(_) => Status::Refused,
            End::Unwritten(_) => Status::WriteFault,
            End::Failed(failure) => failure.status(),
        }
    }
}

/// How a call ends.
#[derive(Drop)]
pub enum CallEnd<'a> {
    /// As its command does.
    Command(End<'a>),
    /// At once: its words ask for nothing that there is.
    Misuse(Misuse<'a>),
}

impl CallEnd<'_> {
    ghost use Rattle.redl_lines.specs.Ends.{call_end_view, end_status};

    /// The status of a call that ends so.
    pub fn status(&self) -> Status
        ensures { result ≡ end_status (call_end_view self.now) }
    {
        match self {
            CallEnd::Command(end) => end.status(),
            CallEnd::Misuse(misuse) => misuse.status(),
        }
    }
}
