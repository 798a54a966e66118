//! Numbers, and amounts in words.

ghost use Rattle.std.specs.Prelude.{◌≡◌, ◌<◌, ◌++◌, OnOk, Some, decimal};
ghost use Rattle.redl_properties.specs.Amounts.{amount, fraction, hundredths, measured, natural, number_in, read, sign, with_sign};

use itoa::Buffer;
use std::alloc::AllocError;

// The number of digits that a number has at most.
const DIGITS: usize = 9;

/// A number, of at most nine digits.
#[derive(Clone, Copy, Debug, PartialEq, Eq)]
pub struct Number {
    /// Whether it has a minus sign.
    pub negative: bool,
    /// What it is without a sign.
    pub size: u32,
}

// The number with one digit more.
fn read(so_far: Option<u32>, digit: u8) -> Option<u32>
    ensures { result ≡ read so_far digit }
{
    match so_far {
        Some(number) if digit >= b'0' && digit <= b'9' && number <= 99_999_999 => {
            Some(10 * number + (digit - b'0') as u32)
        }
        _ => None,
    }
}

/// The number that these digits are, of which there are one to nine.
pub(crate) fn natural(digits: &[u8]) -> Option<u32>
    ensures { result ≡ natural digits.now }
{
    if digits.is_empty() || digits.len() > DIGITS {
        return None;
    }
    let mut number = Some(0);
    for digit in digits {
        number = read(number, *digit);
    }
    number
}

/// The number that a text is.
pub(crate) fn number_in(text: &[u8]) -> Option<Number>
    ensures { result ≡ number_in text.now }
{
    match text {
        [b'-', digits @ ..] => with_sign(true, natural(digits)),
        [b'+', digits @ ..] => with_sign(false, natural(digits)),
        digits => with_sign(false, natural(digits)),
    }
}

fn with_sign(negative: bool, size: Option<u32>) -> Option<Number>
    ensures { result ≡ with_sign negative size }
{
    match size {
        Some(size) => Some(Number { negative, size }),
        None => None,
    }
}

// A number of hundredths of a unit, of which one has so many parts.
fn hundredths(parts: u32, number: u32) -> u64
    requires some { 0 < parts }
    ensures { result ≡ hundredths parts number }
{
    (number as u64 * 100 + parts as u64 / 2) / parts as u64
}

/// Adds a number of parts in units, of which one has so many parts, with at most two figures behind the point. `Err` means out of
/// memory.
pub(crate) fn push_amount(line: &mut Vec<u8>, parts: u32, number: u32) -> Result<(), AllocError>
    requires some { 0 < parts }
    ensures { OnOk result (line.new.items ≡ line.old.items ++ amount parts number) }
{
    let hundredths = hundredths(parts, number);
    push_decimal(line, hundredths / 100)?;
    push_fraction(line, (hundredths % 100) as u8)
}

/// Adds a number. `Err` means out of memory.
pub(crate) fn push_decimal(line: &mut Vec<u8>, number: u64) -> Result<(), AllocError>
    ensures { OnOk result (line.new.items ≡ line.old.items ++ decimal number) }
{
    let mut buffer = Buffer::new();
    line.extend_from_slice(buffer.format(number).as_bytes())
}

fn push_fraction(line: &mut Vec<u8>, hundredths: u8) -> Result<(), AllocError>
    requires { hundredths < 100 }
    ensures { OnOk result (line.new.items ≡ line.old.items ++ fraction hundredths) }
{
    if hundredths == 0 {
        return Ok(());
    }
    if hundredths % 10 == 0 {
        return line.extend_from_slice(&[b'.', b'0' + hundredths / 10]);
    }
    line.extend_from_slice(&[b'.', b'0' + hundredths / 10, b'0' + hundredths % 10])
}

/// Adds a text that is a number of parts in units, with the name of the unit, and any other text as it is. `Err` means out of memory.
pub(crate) fn push_measured(
    line: &mut Vec<u8>,
    parts: u32,
    unit: &str,
    text: &[u8],
) -> Result<(), AllocError>
    requires some { 0 < parts }
    ensures { OnOk result (line.new.items ≡ line.old.items ++ measured parts unit.now text.now) }
{
    match number_in(text) {
        Some(number) => {
            push_sign(line, number.negative)?;
            push_amount(line, parts, number.size)?;
            line.extend_from_slice(unit.as_bytes())
        }
        None => line.extend_from_slice(text),
    }
}

fn push_sign(line: &mut Vec<u8>, negative: bool) -> Result<(), AllocError>
    ensures { OnOk result (line.new.items ≡ line.old.items ++ sign negative) }
{
    if negative {
        line.extend_from_slice(b"-")?;
    }
    Ok(())
}
