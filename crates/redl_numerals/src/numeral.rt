//! A number in its form.

ghost use Rattle.std.specs.Prelude.{◌≡◌, ◌++◌, OnOk};
ghost use Rattle.redl_numerals.specs.Numerals.{minus_text, numeral, plus_text};

use crate::decimal::{put_decimal, put_letters, put_ordinal, put_padded};
use crate::format::Format;
use crate::number::Number;
use crate::roman::put_roman;
use std::alloc::AllocError;

/// Appends a number in this form. `Err` means out of memory.
pub fn put_numeral(format: Format, number: Number, out: &mut Vec<u8>) -> Result<(), AllocError>
    ensures { OnOk result (out.new.items ≡ out.old.items ++ numeral format number) }
{
    match number {
        Number::Plus(above) => put_plus(format, above, out),
        Number::Minus(below) => put_minus(format, below, out),
    }
}

fn put_plus(format: Format, n: u64, out: &mut Vec<u8>) -> Result<(), AllocError>
    ensures { OnOk result (out.new.items ≡ out.old.items ++ plus_text format n) }
{
    match format {
        Format::Decimal => put_decimal(n, out),
        Format::DecimalZero => put_padded(2, n, out),
        Format::Padded(width) => put_padded(width, n, out),
        Format::UpperRoman => put_roman(0, n, out),
        Format::LowerRoman => put_roman(32, n, out),
        Format::UpperLetter => put_letters(b'A', n, out),
        Format::LowerLetter => put_letters(b'a', n, out),
        Format::Ordinal => put_ordinal(n, out),
        Format::Nothing => Ok(()),
        Format::Bullet => put_decimal(n, out),
    }
}

fn put_minus(format: Format, n: u64, out: &mut Vec<u8>) -> Result<(), AllocError>
    ensures { OnOk result (out.new.items ≡ out.old.items ++ minus_text format n) }
{
    match format {
        Format::Nothing => Ok(()),
        _ => {
            out.push(b'-')?;
            put_decimal(n, out)
        }
    }
}
