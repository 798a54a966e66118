//! Why a call ends without its output.

ghost use Rattle.std.specs.Prelude.{◌≡◌};

use crate::Status;
use redl_opc::OpcError;
use redl_rules::RuleError;
use redl_xml::XmlError;
use std::alloc::AllocError;

/// Why a file is no package.
#[derive(Clone, Copy, Debug, PartialEq, Eq)]
pub enum PackageFault {
    /// It is the text of no tree.
    NotReadable,
    /// Its root isn't `package`.
    NotPackage,
    /// A part does not have the shape of one.
    PartShape,
    /// No story has the root `document`.
    NoDocument,
    /// It breaks the structure rule with this number, and none with a lesser one.
    Rule(u8),
}

/// What is over its limit.
#[derive(Clone, Copy, Debug, PartialEq, Eq)]
pub enum Limit {
    /// The bytes of the package.
    PackageBytes,
    /// The bytes of all journals.
    JournalBytes,
    /// How deep elements stand in one another.
    Depth,
    /// How many nodes the package has.
    Nodes,
    /// How many paragraphs a sample has.
    Sample,
}

/// What in the files of a call, or in what its words ask of them, makes it end without its output.
#[derive(Clone, Copy)]
pub enum Cause<'a> {
    /// The file is no package.
    Package(PackageFault),
    /// The second of two files is no package.
    Second(PackageFault),
    /// The journal of this name has no reading.
    Malformed(&'a str),
    /// The journal of this name is one of another document.
    OtherDocument {
        journal: &'a str,
        found: [u8; 32],
        expected: [u8; 32],
    },
    /// The journal of this name is one of a document with another count of revisions.
    OtherCount {
        journal: &'a str,
        found: u32,
        expected: u32,
    },
    /// The reviewer has no sequence number left.
    NoSequence(&'a [u8]),
    /// The second package isn't what the first one's journals leave of it.
    NotWritten,
    /// Two sittings come to different documents.
    Differ,
    /// A quantity is over its limit.
    Limit(Limit),
}

impl Cause<'_> {
    ghost use Rattle.redl_lines.specs.Failures.{cause_view, cause_status};

    /// The status of a call that ends so.
    pub fn status(&self) -> Status
        ensures { result ≡ cause_status (cause_view self.now) }
    {
        match self {
            Cause::Package(_) | Cause::Second(_) => Status::Package,
            Cause::Malformed(_) | Cause::OtherDocument { .. } | Cause::OtherCount { .. } =>
                Status::Journal,
            Cause::NoSequence(_) => Status::Sequence,
            Cause::NotWritten => Status::NotWritten,
            Cause::Differ => Status::Differ,
            Cause::Limit(_) => Status::Limit,
        }
    }
}

/// Why a command ends without its output. It is never a misuse of the words: that is found before the command begins.
#[derive(Clone, Copy)]
pub enum Failure<'a> {
    /// The files are the cause.
    Cause(Cause<'a>),
    /// The file of this name is missing, or could not be fetched.
    Unread(&'a str),
    /// An allocation failed.
    NoMemory,
}

impl Failure<'_> {
    ghost use Rattle.redl_lines.specs.Failures.{failure_view, failure_status};

    /// The status of a call that ends so.
    pub fn status(&self) -> Status
        ensures { result ≡ failure_status (failure_view self.now) }
    {
        match self {
            Failure::Cause(cause) => cause.status(),
            Failure::Unread(_) => Status::ReadFault,
            Failure::NoMemory => Status::NoMemory,
        }
    }
}

impl From<AllocError> for Failure<'_> {
    ghost use Rattle.redl_lines.specs.declared.failure.Failure.TheVariants.{NoMemory};

    ghost from_gives = { λ _ failure. failure ≡ NoMemory };

    fn from(_error: AllocError) -> Self {
        Failure::NoMemory
    }
}

impl From<XmlError> for Failure<'_> {
    ghost use Rattle.redl_lines.specs.Causes.{xml_failure};
    ghost use Rattle.redl_lines.specs.Failures.{failure_view};

    ghost from_gives = { λ error failure. failure_view failure ≡ xml_failure error };

    fn from(error: XmlError) -> Self {
        match error {
            XmlError::Unreadable => Failure::Cause(Cause::Package(PackageFault::NotReadable)),
            XmlError::Depth => Failure::Cause(Cause::Limit(Limit::Depth)),
            XmlError::Nodes => Failure::Cause(Cause::Limit(Limit::Nodes)),
            XmlError::NoMemory => Failure::NoMemory,
        }
    }
}

impl From<OpcError> for Failure<'_> {
    ghost use Rattle.redl_lines.specs.Causes.{shape_failure};
    ghost use Rattle.redl_lines.specs.Failures.{failure_view};

    ghost from_gives = { λ error failure. failure_view failure ≡ shape_failure error };

    fn from(error: OpcError) -> Self {
        match error {
            OpcError::NotPackage => Failure::Cause(Cause::Package(PackageFault::NotPackage)),
            OpcError::PartShape => Failure::Cause(Cause::Package(PackageFault::PartShape)),
            OpcError::NoDocument => Failure::Cause(Cause::Package(PackageFault::NoDocument)),
            OpcError::NoMemory => Failure::NoMemory,
        }
    }
}

impl From<RuleError> for Failure<'_> {
    ghost use Rattle.redl_lines.specs.Causes.{rule_failure};
    ghost use Rattle.redl_lines.specs.Failures.{failure_view};

    ghost from_gives = { λ error failure. failure_view failure ≡ rule_failure error };

    fn from(error: RuleError) -> Self {
        match error {
            RuleError::Broken(rule) => Failure::Cause(Cause::Package(PackageFault::Rule(rule))),
            RuleError::NoMemory => Failure::NoMemory,
        }
    }
}
