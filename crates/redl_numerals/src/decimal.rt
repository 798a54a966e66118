//! Numbers in digits, and with letters that repeat.

ghost use Rattle.std.specs.Prelude.{◌≡◌, ◌++◌, ◌∷◌, ◌≤◌, ◌<◌, ◌-◌, OnOk, decimal, length, replicate};
ghost use Rattle.redl_numerals.specs.Numerals.{ending_by, letters, letters_text, ordinal_ending, ordinal_text, padded_text};

use itoa::Buffer;
use std::alloc::AllocError;

/// Appends a number in digits. `Err` means out of memory, here and below.
pub(crate) fn put_decimal(n: u64, out: &mut Vec<u8>) -> Result<(), AllocError>
    ensures { OnOk result (out.new.items ≡ out.old.items ++ decimal n) }
{
    let mut digits = Buffer::new();
    out.extend_from_slice(digits.format(n).as_bytes())
}

/// Appends a byte so many times.
pub(crate) fn put_repeated(count: usize, byte: u8, out: &mut Vec<u8>) -> Result<(), AllocError>
    ensures { OnOk result (out.new.items ≡ out.old.items ++ replicate count byte) }
{
    for _ in 0..count {
        out.push(byte)?;
    }
    Ok(())
}

/// Appends a number with zeros before it, up to this width.
pub(crate) fn put_padded(width: usize, n: u64, out: &mut Vec<u8>) -> Result<(), AllocError>
    ensures { OnOk result (out.new.items ≡ out.old.items ++ padded_text width n) }
{
    let mut digits = Buffer::new();
    let digits = digits.format(n).as_bytes();
    put_repeated(width.saturating_sub(digits.len()), b'0', out)?;
    out.extend_from_slice(digits)
}

/// Appends a number in letters, of which this is the first.
pub(crate) fn put_letters(first: u8, n: u64, out: &mut Vec<u8>) -> Result<(), AllocError>
    requires { first ≤ 97 }
    ensures { OnOk result (out.new.items ≡ out.old.items ++ letters_text first n) }
{
    if n >= 1 && n <= 780 {
        return put_repeated(
            ((n - 1) / 26 + 1) as usize,
            first + ((n - 1) % 26) as u8,
            out,
        );
    }
    put_decimal(n, out)
}

/// Appends a number as an ordinal.
pub(crate) fn put_ordinal(n: u64, out: &mut Vec<u8>) -> Result<(), AllocError>
    ensures { OnOk result (out.new.items ≡ out.old.items ++ ordinal_text n) }
{
    put_decimal(n, out)?;
    out.extend_from_slice(ordinal_ending(n))
}

fn ordinal_ending(n: u64) -> &'static [u8]
    ensures { result.now ≡ ordinal_ending n }
{
    if n % 100 / 10 == 1 {
        return b"th";
    }
    ending_by(n % 10)
}

fn ending_by(last: u64) -> &'static [u8]
    ensures { result.now ≡ ending_by last }
{
    if last == 1 {
        b"st"
    } else if last == 2 {
        b"nd"
    } else if last == 3 {
        b"rd"
    } else {
        b"th"
    }
}
