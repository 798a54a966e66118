//! Commands: what the words of a command line ask for, each with its names, options and locks.

use crate::only::Only;
use redl_io::Text;
use redl_journal::Word;
use redl_kinds::{Lock, Selection};

/// What is shown of a document: its text before its revisions, its text after them, the original with its changes marked, or what can
/// be seen and decided in it, with nothing of how its file is made.
#[derive(Clone, Copy, Debug, PartialEq, Eq)]
pub enum View {
    /// The text before the revisions.
    Original,
    /// The text after them.
    Final,
    /// The original with its changes marked.
    Marked,
    /// What can be seen and decided in the original, with nothing of how its file is made.
    Bare,
    /// What is left in the package that a reader doesn't see, as a text.
    Left,
    /// The same in JSON.
    LeftJson,
}

/// A list of the package's revisions in the format of this name, of those alone that each of `only` shows.
#[derive(Drop)]
pub struct ListCommand {
    /// The name of the package.
    pub package: Text,
    /// The name of the format.
    pub format: Text,
    /// The locks.
    pub locks: Vec<Lock>,
    /// The names of the journals.
    pub journals: Vec<Text>,
    /// What each shown revision has to be.
    pub only: Vec<Only>,
}

/// A page of the package's revisions, on which a reviewer decides in a browser.
#[derive(Drop)]
pub struct PageCommand {
    /// The name of the package.
    pub package: Text,
    /// The title of the document, if it is given.
    pub title: Option<Text>,
    /// The rank of what is decided on the page, if it is given.
    pub rank: Option<u8>,
    /// Whether the page shows the document's pictures.
    pub pictures: bool,
    /// The locks.
    pub locks: Vec<Lock>,
    /// The names of the journals.
    pub journals: Vec<Text>,
}

/// Where each reviewer and each author of the package's revisions stands, in the format of this name, and of an author's revisions
/// each kind, if this is asked for.
#[derive(Drop)]
pub struct ReportCommand {
    /// The name of the package.
    pub package: Text,
    /// The name of the format.
    pub format: Text,
    /// Whether each kind has a line.
    pub by_kind: bool,
    /// The locks.
    pub locks: Vec<Lock>,
    /// The names of the journals.
    pub journals: Vec<Text>,
}

/// A journal of what the reviewer decides, with this rank, on revisions of the package.
#[derive(Drop)]
pub struct DecideCommand {
    /// The name of the package.
    pub package: Text,
    /// The reviewer who decides.
    pub reviewer: Text,
    /// The names of the journals.
    pub journals: Vec<Text>,
    /// The locks.
    pub locks: Vec<Lock>,
    /// What is decided on which revisions.
    pub choices: Vec<(Word, Selection)>,
    /// The rank of what is decided.
    pub rank: u8,
}

/// One journal for the package, of its own journals and those of the second package.
#[derive(Drop)]
pub struct ResumeCommand {
    /// The name of the package.
    pub package: Text,
    /// The name of the second package.
    pub second: Text,
    /// The names of the journals of the package.
    pub firsts: Vec<Text>,
    /// The names of the journals of the second package.
    pub journals: Vec<Text>,
}

/// What the words of a command line ask for. Journals, locks and choices are in the order of the words, with repeats.
#[derive(Drop)]
pub enum Command {
    /// The package under accept, or else under reject, for all its revisions.
    Settle {
        accept: bool,
        package: Text,
    },
    /// The text of the package in this view.
    Text {
        package: Text,
        view: View,
    },
    /// A list of a package's revisions.
    List(ListCommand),
    /// A page of the package's revisions, on which a reviewer decides in a browser.
    Page(PageCommand),
    /// Where each reviewer and each author stands.
    Report(ReportCommand),
    /// The package under the joined verdicts of the journals.
    Write {
        package: Text,
        locks: Vec<Lock>,
        journals: Vec<Text>,
    },
    /// A journal of what a reviewer decides.
    Decide(DecideCommand),
    /// One journal of two sittings.
    Resume(ResumeCommand),
    /// The union of the journals.
    Join {
        journals: Vec<Text>,
    },
    /// Whether the package is sound.
    Check {
        package: Text,
    },
    /// The summary of the sample with so many paragraphs.
    Sample {
        number: u32,
    },
}
