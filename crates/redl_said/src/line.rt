//! The line of a paragraph, and places in it.

ghost use Rattle.std.specs.Prelude.{◌≡◌, ◌++◌, ◌-◌, ◌≤◌, ◌∷◌, [], IfOk, OnOk, length, take, drop, false, true, if◌then◌else◌};
ghost use Rattle.redl_said.specs.Lines.{before, drawn, behind, characters_in, first_characters, last_bytes, last_characters, line_end, line_start, passed, without_characters};

use crate::ear::Ear;
use crate::phrase::{even_end, is_inner, is_white};
use redl_io::Text;
use std::alloc::{AllocError, Global};
use std::marker::Model;

// How many characters before a place and behind it are told.
const NEAR: usize = 40;

// How many bytes so many characters have at most.
const NEAR_BYTES: usize = 160;

/// A line that is being made: its text, and whether white space came last.
#[derive(Drop)]
pub struct Line {
    text: Vec<u8>,
    gap: bool,
}

impl Model for Line {
    ghost use Rattle.redl_said.specs.Lines.{Drawn};

    ghost Value = { Drawn };

    ghost view = { λ line. record { text = line.text.items; gap = line.gap } };
}

impl Line {
    /// A line that says nothing yet. It takes no memory.
    pub fn new(alloc: Global) -> Line
        ensures { result ≡ record { text = []; gap = true } }
    {
        Line {
            text: Vec::new(alloc),
            gap: true,
        }
    }

    // Adds a byte. `Err` means out of memory.
    fn draw(&mut self, byte: u8) -> Result<(), AllocError>
        ensures { OnOk result (self.new ≡ drawn self.old (byte ∷ [])) }
    {
        let white = is_white(byte);
        if !white {
            self.text.push(byte)?;
        } else if !self.gap {
            self.text.push(b' ')?;
        }
        self.gap = white;
        Ok(())
    }

    /// Makes room for this number of bytes more. `Err` means out of memory.
    pub fn make_room(&mut self, count: usize) -> Result<(), AllocError>
        ensures { self.new ≡ self.old }
    {
        self.text.reserve(count)
    }

    /// Its text so far.
    pub fn as_bytes(&self) -> &[u8]
        ensures { result.now ≡ self.now.text }
    {
        &self.text
    }
}

impl Ear for Line {
    ghost use Rattle.redl_said.specs.Lines.{drawn};
    ghost use Rattle.redl_said.specs.Ears.{drawn-nothing, drawn-more};

    ghost heard = { drawn };

    ghost heard_nothing = { drawn-nothing };

    ghost heard_more = { drawn-more };

    fn hear(&mut self, bytes: &[u8]) -> Result<(), AllocError> {
        if let Some(gap) = even_end(self.gap, bytes) {
            self.text.extend_from_slice(bytes)?;
            self.gap = gap;
            return Ok(());
        }
        self.make_room(bytes.len())?;
        for byte in bytes {
            self.draw(*byte)?;
        }
        Ok(())
    }

    fn is_full(&self) -> bool {
        false
    }
}

/// A place in a line: how many bytes of it are left, and whether white space came before.
#[derive(Clone, Copy, Debug, PartialEq, Eq)]
pub struct LinePlace {
    /// How many bytes of the line stand behind it.
    pub left: usize,
    /// White space stands before it, or nothing.
    pub gap: bool,
}

impl LinePlace {
    /// Where a line begins.
    pub fn start(line: &[u8]) -> LinePlace
        ensures { result ≡ line_start line.now }
    {
        LinePlace {
            left: line.len(),
            gap: true,
        }
    }

    /// Where it ends.
    pub fn end() -> LinePlace
        ensures { result ≡ line_end }
    {
        LinePlace { left: 0, gap: true }
    }

    // Goes past a byte.
    #[tactic(auto, unfolding(crate::specs::Lines::passed))]
    fn pass(&mut self, byte: u8)
        ensures { self.new ≡ passed self.old byte }
    {
        let white = is_white(byte);
        if !(white && self.gap) {
            self.left = self.left.saturating_sub(1);
        }
        self.gap = white;
    }
}

impl Ear for LinePlace {
    ghost use Rattle.std.specs.Prelude.{refl};
    ghost use Rattle.redl_said.specs.Lines.{along};
    ghost use Rattle.redl_said.specs.Ears.{along-more};

    ghost heard = { along };

    ghost heard_nothing = { λ place. refl };

    ghost heard_more = { along-more };

    fn hear(&mut self, bytes: &[u8]) -> Result<(), AllocError> {
        if let Some(gap) = even_end(self.gap, bytes) {
            self.left = self.left.saturating_sub(bytes.len());
            self.gap = gap;
            return Ok(());
        }
        for byte in bytes {
            self.pass(*byte);
        }
        Ok(())
    }

    fn is_full(&self) -> bool {
        false
    }
}

/// Up to 40 characters of the line before the place. `Err` means out of memory.
pub fn before(alloc: Global, line: &[u8], place: LinePlace) -> Result<Text, AllocError>
    ensures { IfOk result (λ text. text ≡ before line.now place) }
{
    let from = line.len().saturating_sub(place.left);
    Text::copy_of(alloc, last_characters(&line[..from]))
}

/// Up to 40 characters of the line behind the place. `Err` means out of memory.
pub fn behind(alloc: Global, line: &[u8], place: LinePlace) -> Result<Text, AllocError>
    ensures { IfOk result (λ text. text ≡ behind line.now place) }
{
    let from = line.len().saturating_sub(place.left);
    Text::copy_of(alloc, first_characters(NEAR, &line[from..]))
}

// The first characters, at most so many.
fn first_characters(count: usize, bytes: &[u8]) -> &[u8]
    ensures { result.now ≡ first_characters count bytes.now }
{
    let rest = without_characters(count, bytes);
    &bytes[..bytes.len().saturating_sub(rest.len())]
}

// The last 40 characters, which are among the last 160 bytes.
fn last_characters(bytes: &[u8]) -> &[u8]
    ensures { result.now ≡ last_characters bytes.now }
{
    let near = &bytes[bytes.len().saturating_sub(NEAR_BYTES)..];
    let more = characters_in(near).saturating_sub(NEAR);
    without_characters(more, near)
}

/// The number of characters of a text. It takes no memory.
pub fn characters_in(bytes: &[u8]) -> usize
    ensures value { result ≡ characters_in bytes.now }
    ensures few { result ≤ length bytes.now }
{
    let mut count = 0;
    for byte in bytes {
        if !is_inner(*byte) {
            count += 1;
        }
    }
    count
}

/// The text without so many characters at the beginning. It takes no memory.
pub fn without_characters(count: usize, bytes: &[u8]) -> &[u8]
    ensures { result.now ≡ without_characters count bytes.now }
{
    let mut left = bytes;
    let mut more = count;
    while let Some((first, rest)) = left.split_first() {
        if !is_inner(*first) {
            if more == 0 {
                return left;
            }
            more -= 1;
        }
        left = rest;
    }
    left
}
