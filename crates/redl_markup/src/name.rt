//! The names of elements and attributes, and reading them.

ghost use Rattle.std.specs.Prelude.{◌≡◌, Some, codes};
ghost use Rattle.redl_reading.specs.Lists.{behind, after};
ghost use Rattle.redl_grammar.specs.Names.{may_start, may_follow};
ghost use Rattle.redl_reading.specs.Steps.{Gives};
ghost use Rattle.redl_grammar.specs.ScanNames.{char_at, is_name_byte, name_end, behind_start, word_at, name_at};
ghost use Rattle.redl_markup.specs.Views.{name_view};

use crate::character::{is_name_character, is_name_start};
use redl_reading::{before, run, skip};

/// A name as it is written. With no prefix, `prefix` is empty.
#[derive(Clone, Copy, Debug, PartialEq, Eq, PartialOrd, Ord)]
pub struct Name<'a> {
    /// What comes before the colon.
    pub prefix: &'a [u8],
    /// What comes after it.
    pub local: &'a [u8],
}

#[tactic(auto, unfolding(redl_grammar::specs::Names::may_start))]
fn may_start(c: char, colons: bool) -> bool
    ensures { result ≡ may_start colons c }
{
    is_name_start(c) && (colons || c != ':')
}

#[tactic(auto, unfolding(redl_grammar::specs::Names::may_follow))]
fn may_follow(c: char, colons: bool) -> bool
    ensures { result ≡ may_follow colons c }
{
    is_name_character(c) && (colons || c != ':')
}

#[tactic(auto, unfolding(redl_grammar::specs::ScanNames::char_at))]
fn decoded_char(bytes: &[u8]) -> Option<(char, &[u8])>
    ensures { Gives (λ x. (x.0, x.1.now)) result (char_at bytes.now) }
{
    let (c, size) = bstr::decode_utf8(bytes);
    let c = c?;
    let (_, rest) = bytes.split_at(size);
    Some((c, rest))
}

// The first character. An ASCII byte is a character, so few are decoded.
#[tactic(auto, using(redl_grammar::proofs::Names::ascii_again))]
fn first_char(bytes: &[u8]) -> Option<(char, &[u8])>
    ensures { Gives (λ x. (x.0, x.1.now)) result (char_at bytes.now) }
{
    match bytes.split_first() {
        Some((first, rest)) if first.is_ascii() => Some((char::from(*first), rest)),
        _ => decoded_char(bytes),
    }
}

#[cold]
#[tactic(auto, unfolding(redl_grammar::specs::ScanNames::behind_start))]
fn behind_start_char(bytes: &[u8], colons: bool) -> Option<&[u8]>
    ensures { Gives (λ rest. rest.now) result (behind_start colons bytes.now) }
{
    let (first, rest) = first_char(bytes)?;
    if may_start(first, colons) {
        Some(rest)
    } else {
        None
    }
}

// The bytes after the first character of a name. Most are ASCII letters, so few are decoded.
#[tactic(auto, using(redl_grammar::proofs::Names::letter_starts))]
#[inline(always)]
fn behind_start(bytes: &[u8], colons: bool) -> Option<&[u8]>
    ensures { Gives (λ rest. rest.now) result (behind_start colons bytes.now) }
{
    match bytes.split_first() {
        Some((first, rest)) if first.is_ascii_alphabetic() => Some(rest),
        _ => behind_start_char(bytes, colons),
    }
}

#[tactic(auto, unfolding(redl_grammar::specs::ScanNames::is_name_byte, redl_grammar::specs::Names::may_follow, redl_grammar::specs::Characters::is_name_character, redl_grammar::specs::Characters::is_name_start))]
#[inline(always)]
fn is_name_byte(b: u8, colons: bool) -> bool
    ensures { result ≡ is_name_byte colons b }
{
    // what ends a name comes before the letters, and most of it behind the digits
    if b > b'@' {
        b.is_ascii_alphabetic() || b == b'_'
    } else {
        matches!(b, b'-'..=b'9') && b != b'/' || colons && b == b':'
    }
}

// The bytes after the leading ASCII characters of a name.
#[inline(always)]
fn after_name_bytes(bytes: &[u8], colons: bool) -> &[u8]
    ensures { result.now ≡ after (is_name_byte colons) bytes.now }
{
    run(bytes, |b| is_name_byte(b, colons)).1
}

// The bytes after the leading name characters. Most are ASCII, so few are decoded.
#[inline(always)]
fn end_of_name(bytes: &[u8], colons: bool) -> &[u8]
    ensures { name_end colons bytes.now ≡ Some result.now }
{
    let rest = after_name_bytes(bytes, colons);
    let Some(first) = rest.first() else {
        return rest;
    };
    if first.is_ascii() {
        return rest;
    }
    end_of_characters(rest, colons)
}

// The same, decoding one character at a time.
#[cold]
fn end_of_characters(bytes: &[u8], colons: bool) -> &[u8]
    ensures { name_end colons bytes.now ≡ Some result.now }
{
    let mut rest = bytes;
    while let Some((c, next)) = first_char(rest) {
        if !may_follow(c, colons) {
            break;
        }
        rest = next;
    }
    rest
}

/// A name of one part, and the bytes after it.
#[tactic(auto, using(redl_grammar::proofs::Names::word_fails, redl_grammar::proofs::Names::word_reads))]
#[inline(always)]
pub(crate) fn word(bytes: &[u8], colons: bool) -> Option<(&[u8], &[u8])>
    ensures { Gives (λ x. (x.0.now, x.1.now)) result (word_at colons bytes.now) }
{
    let rest = behind_start(bytes, colons)?;
    let rest = end_of_name(rest, colons);
    Some((before(bytes, rest), rest))
}

/// A name with or without a prefix, and the bytes after it.
#[tactic(auto, unfolding(redl_grammar::specs::ScanNames::name_at))]
#[inline(always)]
pub(crate) fn whole_name(bytes: &[u8]) -> Option<(Name<'_>, &[u8])>
    ensures { Gives (λ x. (name_view x.0, x.1.now)) result (name_at bytes.now) }
{
    let (prefix, rest) = word(bytes, false)?;
    match skip(rest, b":") {
        None => Some((
            Name {
                prefix: &[],
                local: prefix,
            },
            rest,
        )),
        Some(rest) => {
            let (local, rest) = word(rest, false)?;
            Some((Name { prefix, local }, rest))
        }
    }
}
