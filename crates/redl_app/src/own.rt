//! What the program tells of itself.

ghost use Rattle.std.specs.Prelude.{◌≡◌};
ghost use Rattle.redl_app.specs.Own.{first_of, is_help, is_version, own_of, part_in, text_of};

use redl_io::Text;
use redl_page::Skin;

/// What the program may tell of itself.
#[derive(Clone, Copy, Debug, PartialEq, Eq)]
pub enum Own {
    /// Its commands, options and statuses.
    Help,
    /// What one command does, and its options.
    Command,
    /// Its version.
    Version,
}

/// What is told of one command.
#[derive(Clone, Copy)]
pub struct Part<'a> {
    /// The command's name.
    pub command: &'a str,
    /// The answer to the name and `--help`.
    pub text: &'a str,
}

/// The program's texts of itself.
#[derive(Clone, Copy)]
pub struct Texts<'a> {
    /// The answer to `--help`.
    pub help: &'a str,
    /// What is told of each command alone.
    pub parts: &'a [Part<'a>],
    /// The answer to `--version`.
    pub version: &'a str,
}

/// What a program brings to a call besides its formats.
#[derive(Clone, Copy)]
pub struct Program<'a> {
    /// What it tells of itself.
    pub texts: Texts<'a>,
    /// The skin of its pages.
    pub skin: Skin<'a>,
}

impl<'a> Texts<'a> {
    /// The text that these words ask for, which ask for one. Where the command before `--help` is none, it is the whole help.
    pub fn text_of(&self, own: Own, words: &[Text]) -> &'a str
        ensures { result.now ≡ text_of self.now own words.now }
    {
        match own {
            Own::Help => self.help,
            Own::Command => part_in(self.parts, first_of(words), self.help),
            Own::Version => self.version,
        }
    }
}

// The part of the command with this name, or else the whole.
fn part_in<'a>(parts: &'a [Part<'a>], name: &[u8], whole: &'a str) -> &'a str
    ensures { result.now ≡ part_in parts.now name.now whole.now }
{
    match parts {
        [part, ..] if part.command.as_bytes() == name => part.text,
        [_, rest @ ..] => part_in(rest, name, whole),
        [] => whole,
    }
}

fn first_of(words: &[Text]) -> &[u8]
    ensures { result.now ≡ first_of words.now }
{
    match words {
        [word, ..] => word.as_bytes(),
        [] => b"",
    }
}

/// What the words ask the program to tell of itself, if they ask for nothing else.
pub fn own_of(words: &[Text]) -> Option<Own>
    ensures { result ≡ own_of words.now }
{
    match words {
        [] => Some(Own::Help),
        [word] if is_version(word) => Some(Own::Version),
        [word] if is_help(word) => Some(Own::Help),
        [_, word] if word.as_bytes() == b"--help".as_slice() => Some(Own::Command),
        _ => None,
    }
}

fn is_help(word: &Text) -> bool
    ensures { result ≡ is_help word.now }
{
    let word = word.as_bytes();
    word == b"--help".as_slice() || word == b"-h".as_slice() || word == b"help".as_slice()
}

fn is_version(word: &Text) -> bool
    ensures { result ≡ is_version word.now }
{
    let word = word.as_bytes();
    word == b"--version".as_slice() || word == b"-v".as_slice() || word == b"version".as_slice()
}
