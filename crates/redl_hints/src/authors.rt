//! The authors of a package's changes, and names of locked authors that nearly agree with theirs.

use crate::alike::{is_among, key_of, text_of};
use crate::hint::add_hint_before_name;
use bstr::ByteSlice;
use redl_io::Text;
use redl_markup::decode_value;
use std::alloc::{AllocError, Global};

// How many names are remembered.
const MOST: usize = 64;

/// Names of authors, each once: the first 64 of them.
#[derive(Drop)]
pub struct Authors {
    names: Vec<Text>,
}

impl Authors {
    /// No name. It takes no memory.
    pub fn new(alloc: Global) -> Authors {
        Authors {
            names: Vec::new(alloc),
        }
    }

    /// Remembers the authors of the changes in the package with these bytes, if it is one. `Err` means out of memory, and then some
    /// of them may be remembered.
    pub(crate) fn note(&mut self, alloc: Global, package: &[u8]) -> Result<(), AllocError> {
        if !package.starts_with(b"<") && !package.starts_with(b"\xef\xbb\xbf<") {
            return Ok(());
        }
        let mut before: &[u8] = b"";
        for piece in package.split_str(b":author=") {
            if let Some(value) = author_in(before, piece) {
                self.note_name(alloc, value)?;
            }
            before = piece;
        }
        Ok(())
    }

    // Remembers the name with this text in a package, if there is room.
    fn note_name(&mut self, alloc: Global, value: &[u8]) -> Result<(), AllocError> {
        if self.names.len() >= MOST {
            return Ok(());
        }
        let name = decode_value(alloc, value)?;
        if !self.has(&name) {
            self.names.push(Text::copy_of(alloc, &name)?)?;
        }
        Ok(())
    }

    fn has(&self, name: &[u8]) -> bool {
        self.names.iter().any(|known| known.as_bytes() == name)
    }
}

// The value of the attribute between these two texts, where its element is a change: comments and people have authors too.
fn author_in<'a>(before: &[u8], after: &'a [u8]) -> Option<&'a [u8]> {
    let (_, tag) = before.rsplit_once_str(b"<")?;
    let element = tag.fields().next()?;
    if element.ends_with(b":comment") || element.ends_with(b":person") {
        return None;
    }
    let (quote, rest) = after.split_first()?;
    let (value, _) = rest.split_once_str(&[*quote])?;
    Some(value)
}

/// Whether the words lock the changes of an author.
pub(crate) fn locks_an_author(words: &[Text]) -> bool {
    words.iter().any(is_lock)
}

fn is_lock(word: &Text) -> bool {
    word.as_bytes() == b"--lock".as_slice()
}

/// Adds a hint for each locked author who has no change, where an author's name differs from that one only by case, spaces or Unicode
/// form. `Err` means out of memory.
pub(crate) fn add_lock_hints(
    alloc: Global,
    words: &[Text],
    authors: &Authors,
    hints: &mut Vec<u8>,
) -> Result<(), AllocError> {
    for pair in words.windows(2) {
        if is_lock(&pair[0]) && !authors.has(pair[1].as_bytes()) {
            add_lock_hint(alloc, text_of(&pair[1]), authors, hints)?;
        }
    }
    Ok(())
}

fn add_lock_hint(
    alloc: Global,
    locked: &str,
    authors: &Authors,
    hints: &mut Vec<u8>,
) -> Result<(), AllocError> {
    let mut keys = Vec::new(alloc);
    keys.push(key_of(alloc, locked)?)?;
    for name in &authors.names {
        let name = text_of(name);
        if is_among(alloc, &keys, key_of(alloc, name)?.as_str())? {
            add_hint_before_name(
                hints,
                "a locked author's name differs only by case, spaces or Unicode form from that of an author who has changes here and is not locked: ",
                name,
            )?;
        }
    }
    Ok(())
}
