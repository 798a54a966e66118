//! The text of a number.

ghost use Rattle.std.specs.Prelude.{◌≡◌, ◌++◌, ◌+◌, ◌<◌, drop, length, IfOk, OnOk, Some, false};
ghost use Rattle.redl_lists.specs.Levels.{short};
ghost use Rattle.redl_numerals.specs.Formats.{format_in};
ghost use Rattle.redl_numbering.specs.Nums.{level_at};
ghost use Rattle.redl_numbering.specs.NumberTexts.{bullet_text, bullets_from, filled_from, format_at, is_bullet, is_private, level_text, number_text, part_text};
ghost use Rattle.redl_numbering.specs.Inside.Fills.{added, opened};

use crate::paragraph::Values;
use crate::used::Used;
use redl_io::Text;
use redl_lists::Level;
use redl_numerals::{Format, Number, put_numeral};
use std::alloc::{AllocError, Global};

// How many bytes a number has at most.
const LONGEST: usize = 200;

// U+2022
const BULLET: &[u8] = b"\xE2\x80\xA2";

/// A number: the levels of its num, its own level, and the values of all.
#[derive(Clone, Copy)]
pub(crate) struct Numbered<'t> {
    pub(crate) used: Used<'t>,
    pub(crate) level: usize,
    pub(crate) values: Values,
}

impl<'t> Numbered<'t> {
    /// Its text. `Err` means out of memory, here and below.
    pub(crate) fn text(&self, alloc: Global) -> Result<Text, AllocError>
        ensures { IfOk result (λ text. text ≡ number_text self.now.used.overrides.now self.now.used.levels.now self.now.level self.now.values) }
    {
        let mut text = Vec::new(alloc);
        if let Some(level) = self.used.level(self.level) {
            self.put_level(level, &mut text)?;
        }
        short(alloc, &text)
    }

    // Appends the text of its level.
    fn put_level(&self, level: &Level, out: &mut Vec<u8>) -> Result<(), AllocError>
        ensures { OnOk result (out.new.items ≡ out.old.items ++ level_text self.now.used.overrides.now self.now.used.levels.now self.now.level self.now.values (Some level.now)) }
    {
        if is_bullet(level.format) {
            return put_bullet(level.has_picture, level.text.as_bytes(), out);
        }
        self.put_filled(level.is_legal, level.text.as_bytes(), out)
    }

    // Appends a text, in which each `%n` has what level n is.
    fn put_filled(&self, is_legal: bool, text: &[u8], out: &mut Vec<u8>) -> Result<(), AllocError>
        ensures { OnOk result (out.new.items ≡ out.old.items ++ filled_from (part_text self.now.used.overrides.now self.now.used.levels.now self.now.level self.now.values is_legal) false text.now) }
    {
        let mut pending = false;
        for byte in text {
            pending = self.put_byte(is_legal, pending, *byte, out)?;
        }
        if pending {
            out.push(b'%')?;
        }
        Ok(())
    }

    // Appends what a byte adds, where a per cent sign came last or not, and says whether it is one.
    fn put_byte(
        &self,
        is_legal: bool,
        pending: bool,
        byte: u8,
        out: &mut Vec<u8>,
    ) -> Result<bool, AllocError>
        ensures added { OnOk result (out.new.items ≡ out.old.items ++ added (part_text self.now.used.overrides.now self.now.used.levels.now self.now.level self.now.values is_legal) pending byte) }
        ensures sign { IfOk result (λ now. now ≡ opened pending byte) }
    {
        if pending && b'1' <= byte && byte <= b'9' {
            self.put_part(is_legal, (byte - b'1') as usize, out)?;
            return Ok(false);
        }
        if pending {
            out.push(b'%')?;
        }
        if byte == b'%' {
            return Ok(true);
        }
        out.push(byte)?;
        Ok(false)
    }

    // Appends what a level is: nothing, where it is deeper.
    fn put_part(&self, is_legal: bool, level: usize, out: &mut Vec<u8>) -> Result<(), AllocError>
        requires { level < 9 }
        ensures { OnOk result (out.new.items ≡ out.old.items ++ part_text self.now.used.overrides.now self.now.used.levels.now self.now.level self.now.values is_legal level) }
    {
        if self.level < level {
            return Ok(());
        }
        let number = self.values[level].unwrap_or(Number::Plus(0));
        put_numeral(self.format(level).within(is_legal), number, out)
    }

    // The form of a level's numbers.
    fn format(&self, level: usize) -> Format
        ensures { result ≡ format_at (level_at self.now.used.overrides.now self.now.used.levels.now level) }
    {
        match self.used.level(level) {
            Some(level) => level.format,
            None => Format::Decimal,
        }
    }
}

// A number that is no longer than any in use: nothing takes the place of a longer one.
fn short(alloc: Global, number: &[u8]) -> Result<Text, AllocError>
    ensures { IfOk result (λ kept. kept ≡ short 200 number.now) }
{
    if number.len() <= LONGEST {
        return Text::copy_of(alloc, number);
    }
    Text::copy_of(alloc, b"")
}

fn is_bullet(format: Format) -> bool
    ensures { result ≡ is_bullet format }
{
    match format {
        Format::Bullet => true,
        _ => false,
    }
}

// Appends the text of a bullet.
fn put_bullet(has_picture: bool, text: &[u8], out: &mut Vec<u8>) -> Result<(), AllocError>
    ensures { OnOk result (out.new.items ≡ out.old.items ++ bullet_text has_picture text.now) }
{
    if !text.is_empty() {
        return put_bullets(text, out);
    }
    if has_picture {
        out.extend_from_slice(BULLET)?;
    }
    Ok(())
}

// Appends a text, with a bullet for each character from U+E000 to U+F8FF.
fn put_bullets(text: &[u8], out: &mut Vec<u8>) -> Result<(), AllocError>
    ensures { OnOk result (out.new.items ≡ out.old.items ++ bullets_from 0 text.now) }
{
    let mut skip: u8 = 0;
    for (place, byte) in text.iter().enumerate() {
        if skip > 0 {
            skip -= 1;
        } else if is_private(*byte, text, place) {
            out.extend_from_slice(BULLET)?;
            skip = 2;
        } else {
            out.push(*byte)?;
        }
    }
    Ok(())
}

// Whether such a character begins with this byte, which stands at this place of a text.
fn is_private(byte: u8, text: &[u8], place: usize) -> bool
    requires { place < length text.now }
    ensures { result ≡ is_private byte (drop (place + 1) text.now) }
{
    if byte == 238 {
        return true;
    }
    match text.get(place + 1) {
        Some(next) => byte == 239 && *next < 164,
        None => byte == 239,
    }
}
