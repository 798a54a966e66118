//! Owned text that is UTF-8.

ghost use Rattle.std.specs.Prelude.{◌≡◌, IfOk};
ghost use Rattle.std.specs.Str.{IsUtf8};
ghost use Rattle.redl_properties.specs.Utf8.{text_or_nothing};

use redl_io::Text;
use std::alloc::{AllocError, Global};
use std::marker::Model;

/// Owned text that is UTF-8. Contracts see its bytes.
#[derive(Drop)]
pub struct Utf8Text {
    text: Text,
}

impl Model for Utf8Text {
    ghost use Rattle.std.specs.Prelude.{List, ℕ};
    ghost use Rattle.std.specs.Str.{IsUtf8};

    ghost Value = { List ℕ };

    ghost view = { λ kept. kept.text };

    ghost invariant = { λ kept. IsUtf8 kept.text };
}

impl Utf8Text {
    /// A copy of the bytes, where they are UTF-8, and else nothing. `Err` means out of memory.
    pub fn of(alloc: Global, bytes: &[u8]) -> Result<Utf8Text, AllocError>
        ensures { IfOk result (λ kept. kept ≡ text_or_nothing bytes.now) }
    {
        Utf8Text::kept(alloc, text_or_nothing(bytes))
    }

    // A copy of bytes that are UTF-8. `Err` means out of memory.
    fn kept(alloc: Global, bytes: &[u8]) -> Result<Utf8Text, AllocError>
        requires { IsUtf8 bytes.now }
        ensures { IfOk result (λ kept. kept ≡ bytes.now) }
    {
        let text = Text::copy_of(alloc, bytes)?;
        Ok(Utf8Text { text })
    }

    /// A copy of a text. `Err` means out of memory.
    pub fn of_str(alloc: Global, text: &str) -> Result<Utf8Text, AllocError>
        ensures { IfOk result (λ kept. kept ≡ text.now) }
    {
        Utf8Text::kept(alloc, text.as_bytes())
    }

    /// Its bytes.
    pub fn as_bytes(&self) -> &[u8]
        ensures value { result.now ≡ self.now }
        ensures utf8 { IsUtf8 result.now }
    {
        self.text.as_bytes()
    }

    /// An equal text. `Err` means out of memory.
    pub fn copy(&self, alloc: Global) -> Result<Utf8Text, AllocError>
        ensures { IfOk result (λ copy. copy ≡ self.now) }
    {
        Utf8Text::kept(alloc, self.as_bytes())
    }
}

fn text_or_nothing(bytes: &[u8]) -> &[u8]
    ensures value { result.now ≡ text_or_nothing bytes.now }
    ensures utf8 { IsUtf8 result.now }
{
    match str::from_utf8(bytes) {
        Ok(_) => bytes,
        Err(_) => b"",
    }
}
