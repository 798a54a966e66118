//! Searches for quotes and for ends of values, which are near, by blocks of 16 bytes.

ghost use Rattle.std.specs.Prelude.{◌≡◌};
ghost use Rattle.std.specs.List.{prefix_len};
ghost use Rattle.redl_reading.specs.Lists.{after, front, is_none_of, is_other};

use redl_reading::{before, far_until, run};
use std::simd::prelude::*;

// How many bytes of a block come before its first `"`.
#[inline(always)]
fn ahead_in(block: u8x16) -> usize
    ensures { result ≡ prefix_len (is_other 34) block }
{
    let marks = block.simd_eq(u8x16::splat(b'"')).to_bitmask();
    if marks == 0 {
        16
    } else {
        marks.trailing_zeros() as usize
    }
}

// The bytes from the first `"` on.
#[inline(always)]
fn from_quote(bytes: &[u8]) -> &[u8]
    ensures { result.now ≡ after (is_other 34) bytes.now }
{
    let mut rest = bytes;
    while let Some((block, next)) = rest.split_first_chunk::<16>() {
        let n = ahead_in(u8x16::from_array(*block));
        if n < 16 {
            return rest.split_at(n).1;
        }
        rest = next;
    }
    far_until(rest, b'"').1
}

/// The bytes before the first `"`, and those from it on.
#[inline(always)]
pub(crate) fn until_quote(bytes: &[u8]) -> (&[u8], &[u8])
    ensures front { result.0.now ≡ front (is_other 34) bytes.now }
    ensures rest { result.1.now ≡ after (is_other 34) bytes.now }
{
    let rest = from_quote(bytes);
    (before(bytes, rest), rest)
}

// How many bytes of a block come before its first `"`, `<` or `&`.
#[inline(always)]
fn plain_in(block: u8x16) -> usize
    ensures { result ≡ prefix_len (is_none_of 34 60 38) block }
{
    let found = block.simd_eq(u8x16::splat(b'"'))
        | block.simd_eq(u8x16::splat(b'<'))
        | block.simd_eq(u8x16::splat(b'&'));
    let marks = found.to_bitmask();
    if marks == 0 {
        16
    } else {
        marks.trailing_zeros() as usize
    }
}

// The bytes from the first of them on.
#[inline(always)]
fn from_end(bytes: &[u8]) -> &[u8]
    ensures { result.now ≡ after (is_none_of 34 60 38) bytes.now }
{
    let mut rest = bytes;
    while let Some((block, next)) = rest.split_first_chunk::<16>() {
        let n = plain_in(u8x16::from_array(*block));
        if n < 16 {
            return rest.split_at(n).1;
        }
        rest = next;
    }
    run(rest, |x| !(x == b'"' || x == b'<' || x == b'&')).1
}

/// The bytes before the first `"`, `<` or `&`, and those from it on.
#[inline(always)]
pub(crate) fn until_end(bytes: &[u8]) -> (&[u8], &[u8])
    ensures front { result.0.now ≡ front (is_none_of 34 60 38) bytes.now }
    ensures rest { result.1.now ≡ after (is_none_of 34 60 38) bytes.now }
{
    let rest = from_end(bytes);
    (before(bytes, rest), rest)
}
