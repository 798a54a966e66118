//! Roman numerals.

ghost use Rattle.std.specs.Prelude.{◌≡◌, ◌++◌, ◌≤◌, ◌<◌, OnOk};
ghost use Rattle.redl_numerals.specs.Numerals.{roman, roman_digit, roman_text};

use crate::decimal::{put_decimal, put_repeated};
use std::alloc::AllocError;

// The signs for one, five and ten.
#[derive(Clone, Copy)]
struct Signs {
    one: u8,
    five: u8,
    ten: u8,
}

/// Appends a Roman numeral, in capitals (`small` is 0) or in small letters (32).
pub(crate) fn put_roman(small: u8, n: u64, out: &mut Vec<u8>) -> Result<(), AllocError>
    requires { small ≤ 32 }
    ensures { OnOk result (out.new.items ≡ out.old.items ++ roman_text small n) }
{
    if n >= 1 && n < 4000 {
        return put_digits(small, n, out);
    }
    put_decimal(n, out)
}

fn put_digits(small: u8, n: u64, out: &mut Vec<u8>) -> Result<(), AllocError>
    requires small { small ≤ 32 }
    requires few { n < 4000 }
    ensures { OnOk result (out.new.items ≡ out.old.items ++ roman small n) }
{
    put_repeated((n / 1000) as usize, b'M' + small, out)?;
    put_digit(
        Signs {
            one: b'C' + small,
            five: b'D' + small,
            ten: b'M' + small,
        },
        n / 100 % 10,
        out,
    )?;
    put_digit(
        Signs {
            one: b'X' + small,
            five: b'L' + small,
            ten: b'C' + small,
        },
        n / 10 % 10,
        out,
    )?;
    put_digit(
        Signs {
            one: b'I' + small,
            five: b'V' + small,
            ten: b'X' + small,
        },
        n % 10,
        out,
    )
}

// Appends a digit by the signs for one, five and ten.
fn put_digit(signs: Signs, digit: u64, out: &mut Vec<u8>) -> Result<(), AllocError>
    ensures { OnOk result (out.new.items ≡ out.old.items ++ roman_digit signs.one signs.five signs.ten digit) }
{
    let Signs { one, five, ten } = signs;
    match digit {
        0 => Ok(()),
        1 => out.extend_from_slice(&[one]),
        2 => out.extend_from_slice(&[one, one]),
        3 => out.extend_from_slice(&[one, one, one]),
        4 => out.extend_from_slice(&[one, five]),
        5 => out.extend_from_slice(&[five]),
        6 => out.extend_from_slice(&[five, one]),
        7 => out.extend_from_slice(&[five, one, one]),
        8 => out.extend_from_slice(&[five, one, one, one]),
        _ => out.extend_from_slice(&[one, ten]),
    }
}
