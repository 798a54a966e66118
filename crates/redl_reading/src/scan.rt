//! Runs of bytes that pass a test, fields, and words with which bytes begin.

ghost use Rattle.std.specs.Prelude.{◌≡◌, ℕ, Bool};
ghost use Rattle.redl_reading.specs.Lists.{AnswersAs, behind, past, front, after, before, is_other, field_at};
ghost use Rattle.redl_reading.specs.Steps.{Gives};

use bstr::ByteSlice;

/// The longest leading run of bytes that pass a test, and the bytes after it.
#[inline(always)]
pub fn run<'a, F: Fn(u8) -> bool>(bytes: &'a [u8], passes: F) -> (&'a [u8], &'a [u8])
    requires { F.IsAlwaysCallable passes }
    ensures front { (test : ℕ → Bool) → AnswersAs test (F.post passes) → result.0.now ≡ front test bytes.now }
    ensures rest { (test : ℕ → Bool) → AnswersAs test (F.post passes) → result.1.now ≡ after test bytes.now }
{
    let mut n = 0;
    while n < bytes.len() && passes(bytes[n]) {
        n += 1;
    }
    bytes.split_at(n)
}

/// The bytes before the first `byte`, and those from it on, by a search of many bytes at a time. Without a `byte` all of them
/// come before it.
pub fn far_until(bytes: &[u8], byte: u8) -> (&[u8], &[u8])
    ensures front { result.0.now ≡ front (is_other byte) bytes.now }
    ensures rest { result.1.now ≡ after (is_other byte) bytes.now }
{
    let n = bytes.find_byte(byte).unwrap_or(bytes.len());
    bytes.split_at(n)
}

/// The bytes before the first `end`, and those after it. `None` exactly where there is no `end`.
#[tactic(auto, unfolding(crate::specs::Lists::field_at))]
#[inline(always)]
pub fn field(bytes: &[u8], end: u8) -> Option<(&[u8], &[u8])>
    ensures { Gives (λ x. (x.0.now, x.1.now)) result (field_at end bytes.now) }
{
    let (field, rest) = until(bytes, end);
    let rest = skip(rest, &[end])?;
    Some((field, rest))
}

/// The bytes after a leading word. `None` exactly where the bytes do not begin with it.
#[tactic(auto, using(crate::proofs::Words::behind_pointwise, crate::proofs::Words::behind_not_pointwise))]
#[inline(always)]
pub fn skip<'a>(bytes: &'a [u8], word: &[u8]) -> Option<&'a [u8]>
    ensures { Gives (λ rest. rest.now) result (behind word.now bytes.now) }
{
    bytes.strip_prefix(word)
}

/// The bytes after the first occurrence of a word. `None` exactly where it occurs nowhere.
pub fn past<'a>(bytes: &'a [u8], word: &[u8]) -> Option<&'a [u8]>
    ensures { Gives (λ rest. rest.now) result (past word.now bytes.now) }
{
    let mut left = bytes;
    while let Some((_, rest)) = left.split_first() {
        if let Some(found) = skip(left, word) {
            return Some(found);
        }
        left = rest;
    }
    None
}

/// The bytes before a rest of them.
#[inline(always)]
pub fn before<'a>(bytes: &'a [u8], rest: &[u8]) -> &'a [u8]
    ensures { result.now ≡ before bytes.now rest.now }
{
    &bytes[..bytes.len().saturating_sub(rest.len())]
}

// The same as `far_until`, byte by byte, for a byte that is near.
#[inline(always)]
fn until(bytes: &[u8], byte: u8) -> (&[u8], &[u8])
    ensures front { result.0.now ≡ front (is_other byte) bytes.now }
    ensures rest { result.1.now ≡ after (is_other byte) bytes.now }
{
    run(bytes, |b| b != byte)
}
