//! Whole numbers of attributes.

ghost use Rattle.std.specs.Prelude.{◌≡◌, ◌<◌, ◌≤◌, ◌^◌, IfOk, length, true};
ghost use Rattle.std.specs.Char.{is_ascii_digit};
ghost use Rattle.std.specs.List.{list_all};
ghost use Rattle.redl_numerals.specs.Numbers.{digits_value, is_plain_number, minus, next, number_of, plain_number};

use std::alloc::AllocError;

/// A whole number: zero or above, or so much below zero.
#[derive(Clone, Copy, Debug, PartialEq, Eq)]
pub enum Number {
    /// Zero or above.
    Plus(u64),
    /// Below zero by this much.
    Minus(u64),
}

impl Number {
    /// One more. `Err` means that it is 2^64, which no memory has paragraphs for.
    pub fn next(self) -> Result<Number, AllocError>
        ensures { IfOk result (λ more. more ≡ next self) }
    {
        match self {
            Number::Plus(above) => Ok(Number::Plus(above.checked_add(1).ok_or(AllocError)?)),
            Number::Minus(below) if below < 2 => Ok(Number::Plus(0)),
            Number::Minus(below) => Ok(Number::Minus(below - 1)),
        }
    }
}

/// The number that a text is: one to nine digits, with a sign or without.
pub fn read_number(text: &[u8]) -> Option<Number>
    ensures { result ≡ number_of text.now }
{
    match text {
        [b'-', digits @ ..] => Some(minus(plain_number(digits)?)),
        [b'+', digits @ ..] => Some(Number::Plus(plain_number(digits)?)),
        digits => Some(Number::Plus(plain_number(digits)?)),
    }
}

fn minus(below: u64) -> Number
    ensures { result ≡ minus below }
{
    if below == 0 {
        return Number::Plus(0);
    }
    Number::Minus(below)
}

// The number that one to nine digits are.
fn plain_number(digits: &[u8]) -> Option<u64>
    ensures { result ≡ plain_number digits.now }
{
    if is_plain_number(digits) {
        return Some(digits_value(digits));
    }
    None
}

fn is_plain_number(digits: &[u8]) -> bool
    ensures { result ≡ is_plain_number digits.now }
{
    1 <= digits.len() && digits.len() <= 9 && are_digits(digits)
}

fn are_digits(bytes: &[u8]) -> bool
    ensures { result ≡ list_all is_ascii_digit bytes.now }
{
    bytes.iter().all(|byte| byte.is_ascii_digit())
}

fn digits_value(digits: &[u8]) -> u64
    requires { is_plain_number digits.now ≡ true }
    ensures { result ≡ digits_value 0 digits.now }
{
    let mut value: u64 = 0;
    for digit in digits {
        let units = *digit - b'0';
        value = value * 10 + u64::from(units);
    }
    value
}
