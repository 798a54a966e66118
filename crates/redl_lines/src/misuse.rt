//! How words ask for nothing that there is.

ghost use Rattle.std.specs.Prelude.{◌≡◌};

use crate::Status;

/// Why words ask for nothing that there is.
#[derive(Clone, Copy)]
pub enum Misuse<'a> {
    /// They are no command.
    Words,
    /// No format has this name.
    NoFormat(&'a str),
}

impl Misuse<'_> {
    ghost use Rattle.redl_lines.specs.Failures.{cause_status, misuse_cause};

    /// The status of a call with such words.
    pub(crate) fn status(&self) -> Status
        ensures { result ≡ cause_status (misuse_cause self.now) }
    {
        match self {
            Misuse::Words | Misuse::NoFormat(_) => Status::Usage,
        }
    }
}
