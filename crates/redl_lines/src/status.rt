//! The status that the program ends with.

ghost use Rattle.std.specs.Prelude.{◌≡◌};

/// How a call ended.
#[derive(Clone, Copy, Debug, PartialEq, Eq)]
pub enum Status {
    /// All was written.
    Done = 0,
    /// All was written, and some entry of a journal was refused.
    Refused = 1,
    /// The words are no command, or no listing format has the name.
    Usage = 2,
    /// The file is no package that can be read, or breaks a structure rule.
    Package = 3,
    /// A journal can't be read, or isn't one of this package.
    Journal = 4,
    /// A file is missing, or couldn't be fetched.
    ReadFault = 5,
    /// The output failed; a prefix of it went out.
    WriteFault = 6,
    /// A quantity is over its limit.
    Limit = 7,
    /// An allocation failed, and nothing was written.
    NoMemory = 8,
    /// A reviewer has no sequence number left.
    Sequence = 9,
    /// The second package isn't what the first one's journals leave of it.
    NotWritten = 11,
    /// Two sittings come to different documents.
    Differ = 12,
}

impl Status {
    ghost use Rattle.redl_lines.specs.Status.{code_of};

    /// The exit status of the program.
    pub fn code(self) -> u8
        ensures { result ≡ code_of self }
    {
        self as u8
    }
}
