//! Bytes that show themselves and are written as they are, as nearly all of a text.

ghost use Rattle.std.specs.Prelude.{◌≡◌};
ghost use Rattle.std.specs.List.{list_all};
ghost use Rattle.redl_bare.specs.Inside.Escapes.{is_clean};

use std::simd::prelude::*;

/// Whether all these bytes show themselves and are written as they are.
pub(crate) fn are_clean(bytes: &[u8]) -> bool
    ensures { result ≡ list_all is_clean bytes.now }
{
    let (blocks, rest) = bytes.as_chunks::<16>();
    blocks
        .iter()
        .all(|block| is_clean_block(u8x16::from_array(*block)))
        && rest.iter().all(|b| is_clean(*b))
}

// The same of 16 bytes, all at a time.
#[inline(always)]
fn is_clean_block(block: u8x16) -> bool
    ensures { result ≡ list_all is_clean block }
{
    let found = block.simd_lt(u8x16::splat(14))
        | block.simd_eq(u8x16::splat(b'&'))
        | block.simd_eq(u8x16::splat(b'<'))
        | block.simd_eq(u8x16::splat(b'\\'));
    found.to_bitmask() == 0
}

fn is_clean(byte: u8) -> bool
    ensures { result ≡ is_clean byte }
{
    !(byte < 14 || byte == b'&' || byte == b'<' || byte == b'\\')
}
