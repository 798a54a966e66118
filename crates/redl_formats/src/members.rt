//! The members of objects of JSON.

ghost use Rattle.std.specs.Prelude.{◌≡◌, ◌++◌, ◌∷◌, OnOk, IfSome, [], codes, decimal};
ghost use Rattle.std.specs.Str.{IsUtf8};
ghost use Rattle.json.specs.Token.{key as key_token, string as string_token, number as number_token};
ghost use Rattle.redl_formats.specs.Fields.{date_token};
ghost use Rattle.redl_stamp.specs.Moment.{IsMoment};

use crate::dates::moment_text;
use json::Writer;
use std::alloc::AllocError;

/// Writes a member that is a text. `Err` means out of memory.
pub fn put_text(object: &mut Writer, name: &str, text: &[u8]) -> Result<(), AllocError>
    requires { IsUtf8 text.now }
    ensures written { OnOk result (object.new.tokens ≡ object.old.tokens ++ key_token name.now ∷ string_token text.now ∷ []) }
    ensures before { OnOk result (object.new.before ≡ object.old.before) }
{
    object.key(name)?;
    object.string(str::from_utf8(text).unwrap())
}

/// Writes a member that is a number. `Err` means out of memory.
pub fn put_number(object: &mut Writer, name: &str, number: u32) -> Result<(), AllocError>
    ensures written { OnOk result (object.new.tokens ≡ object.old.tokens ++ key_token name.now ∷ number_token (decimal number) ∷ []) }
    ensures before { OnOk result (object.new.before ≡ object.old.before) }
{
    object.key(name)?;
    object.u64(number as u64)
}

/// Writes the member that is the date. `Err` means out of memory.
pub fn put_date(object: &mut Writer, seconds: Option<i64>) -> Result<(), AllocError>
    requires { IfSome seconds IsMoment }
    ensures written { OnOk result (object.new.tokens ≡ object.old.tokens ++ key_token (codes "date") ∷ date_token seconds ∷ []) }
    ensures before { OnOk result (object.new.before ≡ object.old.before) }
{
    match seconds {
        Some(seconds) => put_text(object, "date", &moment_text(seconds)),
        None => {
            object.key("date")?;
            object.null()
        }
    }
}
