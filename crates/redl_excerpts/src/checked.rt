//! Texts that are UTF-8.

ghost use Rattle.std.specs.Prelude.{◌≡◌, IfOk, IfSome};
ghost use Rattle.std.specs.Option.{option_map};
ghost use Rattle.std.specs.Str.{IsUtf8, is_utf8};
ghost use Rattle.redl_excerpts.specs.Details.{text_or_nothing};

use redl_io::Text;
use std::alloc::{AllocError, Global};

/// A copy of the bytes, where they are UTF-8, and else of nothing. `Err` means out of memory.
pub fn checked_copy(alloc: Global, bytes: &[u8]) -> Result<Text, AllocError>
    ensures value { IfOk result (λ text. text ≡ text_or_nothing bytes.now) }
    ensures utf8 { IfOk result IsUtf8 }
{
    let text = Text::copy_of(alloc, text_or_nothing(bytes))?;
    Ok(text)
}

fn text_or_nothing(bytes: &[u8]) -> &[u8]
    ensures value { result.now ≡ text_or_nothing bytes.now }
    ensures utf8 { IsUtf8 result.now }
{
    match str::from_utf8(bytes) {
        Ok(_) => bytes,
        Err(_) => b"",
    }
}

/// The text, where it is UTF-8, and else nothing. `Err` means out of memory.
pub(crate) fn kept(alloc: Global, text: Text) -> Result<Text, AllocError>
    ensures value { IfOk result (λ kept. kept ≡ text_or_nothing text) }
    ensures utf8 { IfOk result IsUtf8 }
{
    if is_utf8(text.as_bytes()) {
        return Ok(text);
    }
    let nothing = Text::copy_of(alloc, b"")?;
    Ok(nothing)
}

fn is_utf8(bytes: &[u8]) -> bool
    ensures { result ≡ is_utf8 bytes.now }
{
    match str::from_utf8(bytes) {
        Ok(_) => true,
        Err(_) => false,
    }
}

/// The same of a text that may be missing. `Err` means out of memory.
pub(crate) fn kept_if_any(alloc: Global, text: Option<Text>) -> Result<Option<Text>, AllocError>
    ensures value { IfOk result (λ found. found ≡ option_map text_or_nothing text) }
    ensures utf8 { IfOk result (λ found. IfSome found IsUtf8) }
{
    match text {
        Some(text) => {
            let text = kept(alloc, text)?;
            Ok(Some(text))
        }
        None => Ok(None),
    }
}
