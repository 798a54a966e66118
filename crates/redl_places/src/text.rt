//! Places in words.

ghost use Rattle.std.specs.Prelude.{◌≡◌, ◌++◌, IfOk, OnOk};
ghost use Rattle.std.specs.Str.{IsUtf8};
ghost use Rattle.redl_places.specs.Texts.{place_text, sign_text};

use crate::place::StoryPlace;
use crate::sign::NoteSign;
use redl_io::Text;
use redl_numerals::{Format, Number, put_numeral};
use std::alloc::{AllocError, Global};

/// A place in words. `Err` means out of memory, here and below.
pub fn text_of(alloc: Global, place: StoryPlace) -> Result<Text, AllocError>
    ensures value { IfOk result (λ text. text ≡ place_text place) }
    ensures utf8 { IfOk result IsUtf8 }
{
    let mut text = Vec::new(alloc);
    put_place(place, &mut text)?;
    Text::copy_of(alloc, &text)
}

fn put_place(place: StoryPlace, text: &mut Vec<u8>) -> Result<(), AllocError>
    ensures { OnOk result (text.new.items ≡ text.old.items ++ place_text place) }
{
    match place {
        StoryPlace::Document => text.extend_from_slice(b"document"),
        StoryPlace::Header => text.extend_from_slice(b"header"),
        StoryPlace::Footer => text.extend_from_slice(b"footer"),
        StoryPlace::Comment => text.extend_from_slice(b"comment"),
        StoryPlace::TextBox => text.extend_from_slice(b"text box"),
        StoryPlace::Footnote(sign) => {
            text.extend_from_slice(b"footnote")?;
            put_sign(Format::Decimal, sign, text)
        }
        StoryPlace::Endnote(sign) => {
            text.extend_from_slice(b"endnote")?;
            put_sign(Format::LowerRoman, sign, text)
        }
    }
}

// Appends a sign in this form, with a space before it.
fn put_sign(format: Format, sign: Option<NoteSign>, text: &mut Vec<u8>) -> Result<(), AllocError>
    ensures { OnOk result (text.new.items ≡ text.old.items ++ sign_text format sign) }
{
    match sign {
        None => Ok(()),
        Some(NoteSign::Own) => text.extend_from_slice(b" *"),
        Some(NoteSign::Count(count)) => {
            text.extend_from_slice(b" ")?;
            put_numeral(format, Number::Plus(count as u64), text)
        }
    }
}
