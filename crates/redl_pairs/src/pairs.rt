//! A search of 64 and of 16 bytes at a time for two words of two bytes.

ghost use Rattle.std.specs.Prelude.{◌≡◌, ◌∷◌, [], ◌&&◌, ◌<◌, ◌≤◌, false, length, take, drop, IfSome, IsNone};
ghost use Rattle.redl_reading.specs.Lists.{lacks};
ghost use Rattle.redl_pairs.specs.Pairs.{begins_either, lacks_both};

use std::simd::prelude::*;

// Whether none of the first 16 bytes begins such a word.
#[inline(always)]
fn front_lacks(text: &[u8], a: (u8, u8), b: (u8, u8)) -> bool
    requires { 16 < length text.now }
    ensures { result ≡ lacks_both (begins_either a.0 a.1 b.0 b.1) (take 16 text.now) (take 16 (drop 1 text.now)) }
{
    let here = u8x16::from_slice(text);
    let next = u8x16::from_slice(&text[1..]);
    let first = here.simd_eq(u8x16::splat(a.0)) & next.simd_eq(u8x16::splat(a.1));
    let second = here.simd_eq(u8x16::splat(b.0)) & next.simd_eq(u8x16::splat(b.1));
    (first | second).to_bitmask() == 0
}

// The same of the first 64 bytes.
#[inline(always)]
fn block_lacks(text: &[u8], a: (u8, u8), b: (u8, u8)) -> bool
    requires { 64 < length text.now }
    ensures { result ≡ lacks_both (begins_either a.0 a.1 b.0 b.1) (take 64 text.now) (take 64 (drop 1 text.now)) }
{
    let here = u8x64::from_slice(text);
    let next = u8x64::from_slice(&text[1..]);
    let first = here.simd_eq(u8x64::splat(a.0)) & next.simd_eq(u8x64::splat(a.1));
    let second = here.simd_eq(u8x64::splat(b.0)) & next.simd_eq(u8x64::splat(b.1));
    (first | second).to_bitmask() == 0
}

// The same of a whole text, byte by byte.
fn short_lacks(text: &[u8], a: (u8, u8), b: (u8, u8)) -> bool
    ensures { result ≡ lacks_both (begins_either a.0 a.1 b.0 b.1) text.now (drop 1 text.now) }
{
    let mut rest = text;
    while let [here, next, ..] = rest {
        if *here == a.0 && *next == a.1 || *here == b.0 && *next == b.1 {
            return false;
        }
        rest = &rest[1..];
    }
    true
}

// The place behind the leading blocks of 64 bytes. `None` where a word begins in one of them.
#[inline(always)]
fn past_blocks(text: &[u8], a: (u8, u8), b: (u8, u8)) -> Option<usize>
    ensures within { IfSome result (λ i. i ≤ length text.now) }
    ensures so_far { IfSome result (λ i. lacks_both (begins_either a.0 a.1 b.0 b.1) (drop i text.now) (drop 1 (drop i text.now))
        ≡ lacks_both (begins_either a.0 a.1 b.0 b.1) text.now (drop 1 text.now)) }
    ensures none { IsNone result → lacks_both (begins_either a.0 a.1 b.0 b.1) text.now (drop 1 text.now) ≡ false }
{
    let mut i = 0;
    while text.len() - i > 64 {
        if !block_lacks(&text[i..], a, b) {
            return None;
        }
        i += 64;
    }
    Some(i)
}

// Whether none of the bytes of a text begins such a word, where none before this place does.
#[inline(always)]
fn rest_lacks(text: &[u8], from: usize, a: (u8, u8), b: (u8, u8)) -> bool
    requires long { 16 < length text.now }
    requires within { from ≤ length text.now }
    requires so_far { lacks_both (begins_either a.0 a.1 b.0 b.1) (drop from text.now) (drop 1 (drop from text.now))
        ≡ lacks_both (begins_either a.0 a.1 b.0 b.1) text.now (drop 1 text.now) }
    ensures { result ≡ lacks_both (begins_either a.0 a.1 b.0 b.1) text.now (drop 1 text.now) }
{
    let mut i = from;
    while text.len() - i > 16 {
        if !front_lacks(&text[i..], a, b) {
            return false;
        }
        i += 16;
    }
    // The last 17 bytes, of which some were looked at before, so that none is looked at alone.
    front_lacks(&text[text.len() - 17..], a, b)
}

/// Whether neither of two words of two bytes is in the text.
#[inline(always)]
pub fn lacks_pairs(text: &[u8], a: (u8, u8), b: (u8, u8)) -> bool
    ensures { result ≡ (lacks (a.0 ∷ a.1 ∷ []) text.now && lacks (b.0 ∷ b.1 ∷ []) text.now) }
{
    if text.len() < 17 {
        return short_lacks(text, a, b);
    }
    match past_blocks(text, a, b) {
        Some(from) => rest_lacks(text, from, a, b),
        None => false,
    }
}
