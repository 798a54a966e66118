//! The characters of a text.

ghost use Rattle.std.specs.Prelude.{◌≡◌, true, IsTrue, ◌↔◌};
ghost use Rattle.std.specs.List.{list_all, prefix_len};
ghost use Rattle.redl_reading.specs.Lists.{after};
ghost use Rattle.redl_grammar.specs.Characters.{is_character, is_plain_byte, is_name_start, is_name_character, IsText};
ghost use Rattle.redl_markup.specs.Inside.Characters.{ends_noncharacter, are_allowed, is_printed, is_low, is_plain_ascii};

use redl_reading::run;
use std::simd::prelude::*;

#[tactic(auto, unfolding(redl_grammar::specs::Characters::is_character))]
pub(crate) fn is_character(c: char) -> bool
    ensures { result ≡ is_character c }
{
    // nearly all characters are in this range, so it is tested first
    matches!(c, '\u{20}'..='\u{D7FF}')
        || matches!(c, '\t' | '\n' | '\r' | '\u{E000}'..='\u{FFFD}' | '\u{10000}'..='\u{10FFFF}')
}

#[tactic(auto, unfolding(redl_grammar::specs::Characters::is_name_start))]
pub(crate) fn is_name_start(c: char) -> bool
    ensures { result ≡ is_name_start c }
{
    matches!(c, ':' | 'A'..='Z' | '_' | 'a'..='z' | '\u{C0}'..='\u{D6}' | '\u{D8}'..='\u{F6}' | '\u{F8}'..='\u{2FF}'
        | '\u{370}'..='\u{37D}' | '\u{37F}'..='\u{1FFF}' | '\u{200C}'..='\u{200D}' | '\u{2070}'..='\u{218F}'
        | '\u{2C00}'..='\u{2FEF}' | '\u{3001}'..='\u{D7FF}' | '\u{F900}'..='\u{FDCF}' | '\u{FDF0}'..='\u{FFFD}'
        | '\u{10000}'..='\u{EFFFF}')
}

#[tactic(auto, unfolding(redl_grammar::specs::Characters::is_name_character))]
pub(crate) fn is_name_character(c: char) -> bool
    ensures { result ≡ is_name_character c }
{
    is_name_start(c)
        || matches!(c, '-' | '.' | '0'..='9' | '\u{B7}' | '\u{300}'..='\u{36F}' | '\u{203F}'..='\u{2040}')
}

#[tactic(auto, unfolding(redl_grammar::specs::Characters::is_plain_byte))]
fn is_plain_byte(b: u8) -> bool
    ensures { result ≡ is_plain_byte b }
{
    b >= 0x20 && b != 0xEF || matches!(b, b'\t' | b'\n' | b'\r')
}

// The same of 64 bytes, all at a time.
#[inline(always)]
fn is_plain_block(block: u8x64) -> bool
    ensures { result ≡ list_all is_plain_byte block }
{
    let is_control = block.simd_lt(u8x64::splat(0x20))
        & block.simd_ne(u8x64::splat(b'\t'))
        & block.simd_ne(u8x64::splat(b'\n'))
        & block.simd_ne(u8x64::splat(b'\r'));
    !(is_control | block.simd_eq(u8x64::splat(0xEF))).any()
}

// Whether no byte begins a forbidden character: no control character, and not the first byte of U+FFFE and U+FFFF.
fn has_plain_bytes(bytes: &[u8]) -> bool
    ensures { result ≡ list_all is_plain_byte bytes.now }
{
    let (blocks, rest) = bytes.as_chunks::<64>();
    blocks
        .iter()
        .all(|block| is_plain_block(u8x64::from_array(*block)))
        && rest.iter().all(|b| is_plain_byte(*b))
}

// How many bytes of a block come before the first with which a forbidden character may begin.
#[inline(always)]
fn plain_front(block: u8x16) -> usize
    ensures { result ≡ prefix_len is_plain_byte block }
{
    let is_control = block.simd_lt(u8x16::splat(0x20))
        & block.simd_ne(u8x16::splat(b'\t'))
        & block.simd_ne(u8x16::splat(b'\n'))
        & block.simd_ne(u8x16::splat(b'\r'));
    let marks = (is_control | block.simd_eq(u8x16::splat(0xEF))).to_bitmask();
    if marks == 0 {
        16
    } else {
        marks.trailing_zeros() as usize
    }
}

// The bytes from the first with which a forbidden character may begin.
#[inline(always)]
fn after_plain(bytes: &[u8]) -> &[u8]
    ensures { result.now ≡ after is_plain_byte bytes.now }
{
    let mut rest = bytes;
    while let Some((block, next)) = rest.split_first_chunk::<16>() {
        let n = plain_front(u8x16::from_array(*block));
        if n < 16 {
            return rest.split_at(n).1;
        }
        rest = next;
    }
    run(rest, |b| is_plain_byte(b)).1
}

// Whether these bytes are the other two of U+FFFE or U+FFFF.
#[inline(always)]
fn ends_noncharacter(bytes: &[u8]) -> bool
    ensures { result ≡ ends_noncharacter bytes.now }
{
    bytes.starts_with(b"\xBF\xBE") || bytes.starts_with(b"\xBF\xBF")
}

// Whether no forbidden character begins anywhere. A byte with which others begin too, as a full-width comma, is looked behind.
fn has_allowed_bytes(bytes: &[u8]) -> bool
    ensures { result ≡ true → are_allowed bytes.now ≡ true }
{
    let mut rest = after_plain(bytes);
    while let Some((first, next)) = rest.split_first() {
        if *first != 0xEF || ends_noncharacter(next) {
            return false;
        }
        rest = after_plain(next);
    }
    true
}

// Whether 64 bytes are ASCII characters from the space on.
#[inline(always)]
fn is_printed_block(block: u8x64) -> bool
    ensures { result ≡ list_all is_printed block }
{
    !(block.simd_lt(u8x64::splat(0x20)) | block.simd_ge(u8x64::splat(0x80))).any()
}

#[inline(always)]
fn is_low_block(block: u8x64) -> bool
    ensures { result ≡ list_all is_low block }
{
    !block.simd_ge(u8x64::splat(0x80)).any()
}

// Whether 64 bytes are ASCII characters that a text may have. Most blocks have no line break and no tab.
#[inline(always)]
fn is_ascii_block(block: u8x64) -> bool
    ensures { result ≡ true → list_all is_plain_ascii block ≡ true }
{
    if is_printed_block(block) {
        return true;
    }
    if !is_plain_block(block) {
        return false;
    }
    is_low_block(block)
}

// The bytes behind the leading blocks of ASCII characters, on which it depends whether all are a text.
fn after_ascii(bytes: &[u8]) -> &[u8]
    ensures ahead { IsText result.now → IsText bytes.now }
    ensures behind { IsText bytes.now → IsText result.now }
{
    let mut rest = bytes;
    while let Some((block, next)) = rest.split_first_chunk::<64>() {
        if !is_ascii_block(u8x64::from_array(*block)) {
            break;
        }
        rest = next;
    }
    rest
}

// The same as `is_text`, of bytes of which few are ASCII.
fn is_decoded_text(bytes: &[u8]) -> bool
    ensures { IsTrue result ↔ IsText bytes.now }
{
    match str::from_utf8(bytes) {
        // some scripts need the second test, and texts that are refused the third one, which is slow
        Ok(text) => has_plain_bytes(bytes)
            || has_allowed_bytes(bytes)
            || text.chars().all(is_character),
        Err(_) => false,
    }
}

/// Whether the bytes are UTF-8 and each character is one that an XML text may have (XML 1.0, production 2).
pub fn is_text(bytes: &[u8]) -> bool
    ensures { IsTrue result ↔ IsText bytes.now }
{
    is_decoded_text(after_ascii(bytes))
}
