//! Tails as most programs write them, in which no value is the name of an author.

ghost use Rattle.std.specs.Prelude.{◌≡◌, [], ℕ, List, IfSome, IsTrue};
ghost use Rattle.redl_grammar.specs.Names.{Name};
ghost use Rattle.redl_markup.specs.Decoding.{is_literal};
ghost use Rattle.redl_left.specs.Finds.{Table, found_names};
ghost use Rattle.redl_left.specs.Fronts.{BeginsNone};
ghost use Rattle.redl_left.specs.Search.{table_of};
ghost use Rattle.redl_left.specs.Usual.{IsFront};

use crate::fact::Fact;
use crate::search::Search;
use crate::usual::behind_front;

// Whether a byte of a value is read as it is.
fn is_literal_byte(byte: u8) -> bool
    ensures { result ≡ is_literal byte }
{
    byte != b'&' && byte != b'\t' && byte != b'\n' && byte != b'\r'
}

/// Whether it is plain by their first byte that no value that begins with bytes is the name of an author.
pub(crate) fn begins_none(search: &Search<'_>, bytes: &[u8]) -> bool
    ensures { IsTrue result → BeginsNone (table_of search.now) bytes.now }
{
    match bytes.split_first() {
        Some((first, _)) => is_literal_byte(*first) && search.none_begins(Fact::Name, *first),
        None => true,
    }
}

// The rest of a tail behind an attribute that begins so, where it is plain that its value is no name.
#[inline(always)]
fn behind_none<'t>(search: &Search<'_>, tail: &'t [u8], front: &[u8]) -> Option<&'t [u8]>
    ensures { (name : Name) → IsFront name front.now
        → IfSome result (λ rest. (part : List ℕ) → found_names (table_of search.now) part tail.now ≡ found_names (table_of search.now) part rest.now) }
{
    let (value, rest) = behind_front(tail, front)?;
    if !begins_none(search, value) {
        return None;
    }
    Some(rest)
}

// The rest of a tail behind an author.
#[inline(always)]
fn behind_author(tail: &[u8]) -> Option<&[u8]>
    ensures { IfSome result (λ rest. (table : Table) (part : List ℕ) → found_names table part tail.now ≡ found_names table part rest.now) }
{
    let (_, rest) = behind_front(tail, b" w:author=\"")?;
    Some(rest)
}

// The rest of the tail of a tracked change: an id, an author and a date.
fn behind_change<'t>(search: &Search<'_>, tail: &'t [u8]) -> Option<&'t [u8]>
    ensures { IfSome result (λ rest. (part : List ℕ) → found_names (table_of search.now) part tail.now ≡ found_names (table_of search.now) part rest.now) }
{
    let rest = behind_none(search, tail, b" w:id=\"")?;
    let rest = behind_author(rest)?;
    let rest = behind_none(search, rest, b" w:date=\"")?;
    Some(rest)
}

// The rest of the tail of a paragraph: its ids, and two of the sittings in which it was edited.
fn behind_paragraph<'t>(search: &Search<'_>, tail: &'t [u8]) -> Option<&'t [u8]>
    ensures { IfSome result (λ rest. (part : List ℕ) → found_names (table_of search.now) part tail.now ≡ found_names (table_of search.now) part rest.now) }
{
    let rest = behind_none(search, tail, b" w14:paraId=\"")?;
    let rest = behind_none(search, rest, b" w14:textId=\"")?;
    let rest = behind_none(search, rest, b" w:rsidR=\"")?;
    let rest = behind_none(search, rest, b" w:rsidRDefault=\"")?;
    Some(rest)
}

// The rest of the tail of either.
fn behind_usual<'t>(search: &Search<'_>, tail: &'t [u8]) -> Option<&'t [u8]>
    ensures { IfSome result (λ rest. (part : List ℕ) → found_names (table_of search.now) part tail.now ≡ found_names (table_of search.now) part rest.now) }
{
    match behind_change(search, tail) {
        Some(rest) => Some(rest),
        None => behind_paragraph(search, tail),
    }
}

/// Whether a tail is that of a change or of a paragraph as most programs write them, and no value in it is the name of an author.
pub(crate) fn is_usual(search: &Search<'_>, tail: &[u8]) -> bool
    ensures { IsTrue result → (part : List ℕ) → found_names (table_of search.now) part tail.now ≡ [] }
{
    match behind_usual(search, tail) {
        Some(rest) => rest.is_empty(),
        None => false,
    }
}
