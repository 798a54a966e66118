//! The beginning of a text, with one space for each stretch of white space.

ghost use Rattle.std.specs.Prelude.{◌≡◌, [], true, false, IfOk, OnOk};
ghost use Rattle.redl_said.specs.Phrases.{begun, even_from, fits, heard, heard_byte, is_inner, is_white, kept_text, nothing_heard, paused};

use crate::ear::Ear;
use crate::line::characters_in;
use redl_io::Text;
use std::alloc::{AllocError, Global};
use std::marker::Model;

/// What is kept of a text so far.
#[derive(Drop)]
pub struct Phrase {
    text: Vec<u8>,
    // For how many more characters there is room.
    room: u8,
    // White space came last.
    gap: bool,
    // There were more characters than there was room for.
    over: bool,
}

impl Model for Phrase {
    ghost use Rattle.redl_said.specs.Phrases.{Kept};

    ghost Value = { Kept };

    ghost view = { λ phrase. record { text = phrase.text.items; room = phrase.room; gap = phrase.gap; over = phrase.over } };
}

/// White space of XML.
pub(crate) fn is_white(byte: u8) -> bool
    ensures { result ≡ is_white byte }
{
    byte == b' ' || byte == b'\t' || byte == b'\n' || byte == b'\r'
}

/// A byte of UTF-8 with which no character begins.
pub(crate) fn is_inner(byte: u8) -> bool
    ensures { result ≡ is_inner byte }
{
    128 <= byte && byte < 192
}

// Whether a byte is kept as it is, where a space came last or not.
fn fits(space: bool, byte: u8) -> bool
    ensures { result ≡ fits space byte }
{
    !((space & ((byte == b' ') | is_inner(byte)))
        | (byte == b'\t')
        | (byte == b'\n')
        | (byte == b'\r'))
}

/// Whether a space comes last, where all bytes are kept as they are. Whether a space came before them is `space`.
///
/// It looks at every byte: so the compiler takes many at a time.
pub(crate) fn even_end(space: bool, bytes: &[u8]) -> Option<bool>
    ensures { result ≡ even_from true space bytes.now }
{
    let mut even = true;
    let mut last = space;
    for byte in bytes {
        even &= fits(last, *byte);
        last = *byte == b' ';
    }
    even.then_some(last)
}

impl Phrase {
    /// Nothing so far, with room for so many characters. White space at the beginning is left out where `gap` is true. It takes
    /// no memory.
    pub fn new(alloc: Global, room: u8, gap: bool) -> Phrase
        ensures { result ≡ nothing_heard room gap }
    {
        Phrase {
            text: Vec::new(alloc),
            room,
            gap,
            over: false,
        }
    }

    // Makes room for what is kept of this number of bytes more. `Err` means out of memory.
    fn make_room(&mut self, count: usize) -> Result<(), AllocError>
        ensures { self.new ≡ self.old }
    {
        self.text.reserve(count.min(4 * self.room as usize))
    }

    // Hears one byte. `Err` means out of memory.
    #[tactic(auto, unfolding(crate::specs::Phrases::heard_byte))]
    fn hear_byte(&mut self, byte: u8) -> Result<(), AllocError>
        ensures { OnOk result (self.new ≡ heard_byte self.old byte) }
    {
        if self.over {
            return Ok(());
        }
        if is_white(byte) {
            return self.pause();
        }
        if is_inner(byte) {
            self.text.push(byte)?;
            return Ok(());
        }
        self.begin(byte, false)
    }

    // Hears the first bytes at once, where they are kept as they are, and answers those that are left. `Err` means out of memory.
    fn hear_front<'a>(&mut self, bytes: &'a [u8]) -> Result<&'a [u8], AllocError>
        ensures { IfOk result (λ rest. heard self.new rest.now ≡ heard self.old bytes.now) }
    {
        if self.over {
            return Ok(bytes);
        }
        let (front, rest) = bytes.split_at(bytes.len().min(self.room as usize));
        let Some(gap) = even_end(self.gap, front) else {
            return Ok(bytes);
        };
        self.text.extend_from_slice(front)?;
        self.room -= characters_in(front) as u8;
        self.gap = gap;
        Ok(rest)
    }

    // White space comes.
    #[tactic(auto, unfolding(crate::specs::Phrases::paused))]
    fn pause(&mut self) -> Result<(), AllocError>
        ensures { OnOk result (self.new ≡ paused self.old) }
    {
        if self.gap || self.room == 0 {
            return Ok(());
        }
        self.begin(b' ', true)
    }

    // One character more begins with this byte.
    #[tactic(auto, unfolding(crate::specs::Phrases::begun))]
    fn begin(&mut self, byte: u8, white: bool) -> Result<(), AllocError>
        ensures { OnOk result (self.new ≡ begun self.old byte white) }
    {
        if self.room == 0 {
            self.over = true;
            return Ok(());
        }
        self.text.push(byte)?;
        self.room -= 1;
        self.gap = white;
        Ok(())
    }

    /// What is kept, with three dots for the rest. `Err` means out of memory.
    pub fn into_text(self, alloc: Global) -> Result<Text, AllocError>
        ensures { IfOk result (λ text. text ≡ kept_text self) }
    {
        let mut text = self.text;
        if self.over {
            text.extend_from_slice("\u{2026}".as_bytes())?;
        }
        Text::copy_of(alloc, &text)
    }
}

impl Ear for Phrase {
    ghost use Rattle.redl_said.specs.Phrases.{heard};
    ghost use Rattle.redl_said.specs.Ears.{heard-more};
    ghost use Rattle.std.specs.Prelude.{refl};

    ghost heard = { heard };

    ghost heard_nothing = { λ kept. refl };

    ghost heard_more = { heard-more };

    fn hear(&mut self, bytes: &[u8]) -> Result<(), AllocError> {
        let left = self.hear_front(bytes)?;
        self.make_room(left.len())?;
        for byte in left {
            if self.over {
                return Ok(());
            }
            self.hear_byte(*byte)?;
        }
        Ok(())
    }

    fn is_full(&self) -> bool {
        self.over
    }
}

/// The first characters of a text, for which there is room, and three dots for the rest; a stretch of white space is one space.
/// `Err` means out of memory.
pub fn shortened(alloc: Global, bytes: &[u8], room: u8) -> Result<Text, AllocError>
    ensures { IfOk result (λ text. text ≡ kept_text (heard (nothing_heard room false) bytes.now)) }
{
    let mut phrase = Phrase::new(alloc, room, false);
    phrase.hear(bytes)?;
    let text = phrase.into_text(alloc)?;
    Ok(text)
}
