//! Calls of the program over files in memory.

ghost use Rattle.std.specs.Prelude.{IfOk, All, IsUtf8};

use redl_app::{Status, run_words};
use redl_io::{MemShelf, MemSink, Text};
use redl_page::Skin;
use redl_words::add_word;
use std::alloc::{AllocError, Global};

/// What a call came to.
#[derive(Drop)]
pub(crate) struct Answer {
    /// Its status.
    pub status: Status,
    /// What was written.
    pub written: MemSink,
    /// The lines on standard error.
    pub lines: MemSink,
}

// What stands as it is in a page.
const SKIN: Skin<'static> = Skin {
    policy: b"default-src 'none'",
    style: b"p{}",
    script: b"1 < 2",
};

// The most bytes that a call of a row writes.
const ROOM: usize = 20_000;

/// The answer of a call with the words of this line over these files.
pub(crate) fn call(
    alloc: Global,
    line: &str,
    files: Vec<(Text, Vec<u8>)>,
) -> Result<Answer, AllocError> {
    let words = words_of(alloc, line)?;
    let mut written = MemSink::new(alloc, ROOM, Vec::new(alloc))?;
    let mut lines = MemSink::new(alloc, ROOM, Vec::new(alloc))?;
    let mut shelf = MemShelf::new(files, Vec::new(alloc));
    let status = run_words(alloc, &words, &mut shelf, &mut written, &mut lines, &SKIN);
    Ok(Answer {
        status,
        written,
        lines,
    })
}

// The words of a line, with spaces between them. What stands between two quotes is one word.
fn words_of(alloc: Global, line: &str) -> Result<Vec<Text>, AllocError>
    ensures { IfOk result (λ words. All IsUtf8 words.items) }
{
    let mut words = Vec::new(alloc);
    let mut is_quoted = false;
    for piece in line.split('"') {
        add_piece(alloc, &mut words, piece, is_quoted)?;
        is_quoted = !is_quoted;
    }
    Ok(words)
}

// Adds what stands between two quotes as one word, and else the words of the piece.
fn add_piece(
    alloc: Global,
    words: &mut Vec<Text>,
    piece: &str,
    is_quoted: bool,
) -> Result<(), AllocError>
    requires { All IsUtf8 words.old.items }
    ensures { All IsUtf8 words.new.items }
{
    if is_quoted {
        add_word(alloc, words, piece)
    } else {
        add_words(alloc, words, piece)
    }
}

fn add_words(alloc: Global, words: &mut Vec<Text>, piece: &str) -> Result<(), AllocError>
    requires { All IsUtf8 words.old.items }
    ensures { All IsUtf8 words.new.items }
{
    for word in piece.split(' ') {
        if !word.is_empty() {
            add_word(alloc, words, word)?;
        }
    }
    Ok(())
}

/// The answer of a call over this package alone.
pub(crate) fn call_over(alloc: Global, line: &str, package: &[u8]) -> Result<Answer, AllocError> {
    let files = only_package(alloc, package)?;
    call(alloc, line, files)
}

/// The package of this text, as the only file.
pub(crate) fn only_package(
    alloc: Global,
    package: &[u8],
) -> Result<Vec<(Text, Vec<u8>)>, AllocError> {
    let mut files = Vec::new(alloc);
    add_file(alloc, &mut files, "P", package)?;
    Ok(files)
}

/// Adds a file with this name and this text.
pub(crate) fn add_file(
    alloc: Global,
    files: &mut Vec<(Text, Vec<u8>)>,
    name: &str,
    text: &[u8],
) -> Result<(), AllocError> {
    let name = Text::copy_of(alloc, name.as_bytes())?;
    let text = text.to_vec(alloc)?;
    files.push((name, text))?;
    Ok(())
}
