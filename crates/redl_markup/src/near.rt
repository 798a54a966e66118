//! Searches for bytes that are near, by blocks of 16 bytes.

ghost use Rattle.std.specs.Prelude.{◌≡◌};
ghost use Rattle.redl_reading.specs.Lists.{front, after, is_none_of};
ghost use Rattle.redl_markup.specs.Inside.Near.{plain_in};

use redl_reading::{before, run};
use std::simd::prelude::*;

// How many bytes of a block come before the first of three bytes.
#[inline(always)]
fn plain_front(block: u8x16, a: u8, b: u8, c: u8) -> usize
    ensures { result ≡ plain_in a b c block }
{
    let found = block.simd_eq(u8x16::splat(a))
        | block.simd_eq(u8x16::splat(b))
        | block.simd_eq(u8x16::splat(c));
    let marks = found.to_bitmask();
    if marks == 0 {
        16
    } else {
        marks.trailing_zeros() as usize
    }
}

/// The bytes before the first of three bytes, and those from it on.
#[inline(always)]
pub(crate) fn near_until_any(bytes: &[u8], a: u8, b: u8, c: u8) -> (&[u8], &[u8])
    ensures front { result.0.now ≡ front (is_none_of a b c) bytes.now }
    ensures rest { result.1.now ≡ after (is_none_of a b c) bytes.now }
{
    let rest = near_rest(bytes, a, b, c);
    (before(bytes, rest), rest)
}

// The bytes from the first of three bytes on.
#[inline(always)]
fn near_rest(bytes: &[u8], a: u8, b: u8, c: u8) -> &[u8]
    ensures { result.now ≡ after (is_none_of a b c) bytes.now }
{
    let mut rest = bytes;
    while let Some((block, next)) = rest.split_first_chunk::<16>() {
        let n = plain_front(u8x16::from_array(*block), a, b, c);
        if n < 16 {
            return rest.split_at(n).1;
        }
        rest = next;
    }
    run(rest, |x| !(x == a || x == b || x == c)).1
}
