//! Numbers of two and of four decimal digits.

ghost use Rattle.std.specs.Prelude.{◌<◌, ◌≡◌, IfSome};
ghost use Rattle.redl_reading.specs.Lists.{front, after};
ghost use Rattle.redl_reading.specs.Steps.{Gives};
ghost use Rattle.redl_stamp.specs.Moment.{is_decimal, digit_at, two_digits_at, four_digits_at, marked_digits_at};

use redl_reading::{run, skip};

// The value of a leading digit, and the bytes after it.
fn digit(bytes: &[u8]) -> Option<(u8, &[u8])>
    ensures value { Gives (λ x. (x.0, x.1.now)) result (digit_at bytes.now) }
    ensures range { IfSome result (λ x. x.0 < 10) }
{
    match bytes {
        [digit, rest @ ..] if digit.is_ascii_digit() => Some((*digit - b'0', rest)),
        _ => None,
    }
}

/// The number that two leading digits write, and the bytes after them.
pub(crate) fn two_digits(bytes: &[u8]) -> Option<(u8, &[u8])>
    ensures value { Gives (λ x. (x.0, x.1.now)) result (two_digits_at bytes.now) }
    ensures range { IfSome result (λ x. x.0 < 100) }
{
    let (tens, rest) = digit(bytes)?;
    let (ones, rest) = digit(rest)?;
    Some((tens * 10 + ones, rest))
}

/// The number that four leading digits write, and the bytes after them.
pub(crate) fn four_digits(bytes: &[u8]) -> Option<(u16, &[u8])>
    ensures value { Gives (λ x. (x.0, x.1.now)) result (four_digits_at bytes.now) }
    ensures range { IfSome result (λ x. x.0 < 10_000) }
{
    let (high, rest) = two_digits(bytes)?;
    let (low, rest) = two_digits(rest)?;
    Some((high as u16 * 100 + low as u16, rest))
}

/// The number that two digits after a leading `mark` write, and the bytes after them.
pub(crate) fn marked_digits<'a>(bytes: &'a [u8], mark: &[u8]) -> Option<(u8, &'a [u8])>
    ensures value { Gives (λ x. (x.0, x.1.now)) result (marked_digits_at mark.now bytes.now) }
    ensures range { IfSome result (λ x. x.0 < 100) }
{
    let rest = skip(bytes, mark)?;
    two_digits(rest)
}

/// The leading digits, and the bytes after them.
pub(crate) fn digits(bytes: &[u8]) -> (&[u8], &[u8])
    ensures front { result.0.now ≡ front is_decimal bytes.now }
    ensures rest { result.1.now ≡ after is_decimal bytes.now }
{
    run(bytes, |b| b.is_ascii_digit())
}
