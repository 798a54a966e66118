//! The head of a text: a byte order mark and an XML declaration.

ghost use Rattle.std.specs.Prelude.{◌≡◌, codes};
ghost use Rattle.std.specs.Char.{is_ascii_digit};
ghost use Rattle.std.specs.List.{list_all};
ghost use Rattle.redl_reading.specs.Steps.{Gives};
ghost use Rattle.redl_grammar.specs.Stretches.{is_version, is_encoding, is_standalone};
ghost use Rattle.redl_grammar.specs.ScanStretches.{setting_at, optional_after, version_at, declaration_at, after_mark, after_declaration, after_head};

use crate::attribute::equated;
use crate::space::spaces;
use redl_grammar::Section;
use redl_reading::skip;

// White space, a word, a `=` and a text between quotes: that text, and the bytes after it.
#[tactic(auto, unfolding(redl_grammar::specs::ScanStretches::setting_at))]
fn setting<'a>(bytes: &'a [u8], word: &[u8]) -> Option<(&'a [u8], &'a [u8])>
    ensures { Gives (λ x. (x.0.now, x.1.now)) result (setting_at word.now bytes.now) }
{
    let (gap, rest) = spaces(bytes);
    if gap.is_empty() {
        return None;
    }
    let rest = skip(rest, word)?;
    equated(rest)
}

fn are_digits(bytes: &[u8]) -> bool
    ensures { result ≡ list_all is_ascii_digit bytes.now }
{
    bytes.iter().all(|b| b.is_ascii_digit())
}

#[tactic(auto, unfolding(redl_grammar::specs::Stretches::is_version))]
fn is_version(value: &[u8]) -> bool
    ensures { result ≡ is_version value.now }
{
    match skip(value, b"1.") {
        Some(digits) => !digits.is_empty() && are_digits(digits),
        None => false,
    }
}

fn is_encoding(value: &[u8]) -> bool
    ensures { result ≡ is_encoding value.now }
{
    value.eq_ignore_ascii_case(b"UTF-8")
}

fn is_standalone(value: &[u8]) -> bool
    ensures { result ≡ is_standalone value.now }
{
    value == b"yes".as_slice() || value == b"no".as_slice()
}

#[tactic(auto, unfolding(redl_grammar::specs::ScanStretches::version_at))]
fn version(bytes: &[u8]) -> Option<&[u8]>
    ensures { Gives (λ rest. rest.now) result (version_at bytes.now) }
{
    let (value, rest) = setting(bytes, b"version")?;
    if is_version(value) { Some(rest) } else { None }
}

// The bytes after the encoding, which is optional.
fn encoding(bytes: &[u8]) -> Option<&[u8]>
    ensures { Gives (λ rest. rest.now) result (optional_after is_encoding bytes.now (setting_at (codes "encoding") bytes.now)) }
{
    match setting(bytes, b"encoding") {
        None => Some(bytes),
        Some((value, rest)) if is_encoding(value) => Some(rest),
        Some(_) => None,
    }
}

// The bytes after the `standalone` setting, which is optional.
fn standalone(bytes: &[u8]) -> Option<&[u8]>
    ensures { Gives (λ rest. rest.now) result (optional_after is_standalone bytes.now (setting_at (codes "standalone") bytes.now)) }
{
    match setting(bytes, b"standalone") {
        None => Some(bytes),
        Some((value, rest)) if is_standalone(value) => Some(rest),
        Some(_) => None,
    }
}

// The bytes after an XML declaration.
#[tactic(auto, unfolding(redl_grammar::specs::ScanStretches::declaration_at))]
fn declaration(bytes: &[u8]) -> Option<&[u8]>
    ensures { Gives (λ rest. rest.now) result (declaration_at bytes.now) }
{
    let rest = skip(bytes, b"<?xml")?;
    let rest = version(rest)?;
    let rest = encoding(rest)?;
    let rest = standalone(rest)?;
    let (_, rest) = spaces(rest);
    skip(rest, b"?>")
}

#[tactic(auto, unfolding(redl_grammar::specs::ScanStretches::after_mark))]
fn after_mark(bytes: &[u8]) -> &[u8]
    ensures { result.now ≡ after_mark bytes.now }
{
    skip(bytes, b"\xEF\xBB\xBF").unwrap_or(bytes)
}

#[tactic(auto, unfolding(redl_grammar::specs::ScanStretches::after_declaration))]
fn after_declaration(bytes: &[u8]) -> &[u8]
    ensures { result.now ≡ after_declaration bytes.now }
{
    declaration(bytes).unwrap_or(bytes)
}

/// The bytes after the head. Only the stretch before the root has one.
pub(crate) fn after_head(bytes: &[u8], place: Section) -> &[u8]
    ensures { result.now ≡ after_head place bytes.now }
{
    match place {
        Section::BeforeRoot => after_declaration(after_mark(bytes)),
        Section::InElement | Section::AfterRoot => bytes,
    }
}
