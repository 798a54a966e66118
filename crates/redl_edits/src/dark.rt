//! The next unit that isn't blank.

ghost use Rattle.std.specs.Prelude.{◌≡◌, ◌≤◌, ◌<◌, ℕ, IfOk, length, slice_index, slice_index_or};
ghost use Rattle.redl_spans.specs.declared.span.Span.{Span};
ghost use Rattle.redl_edits.specs.Inside.Ends.{AreInOrder};
ghost use Rattle.redl_edits.specs.Inside.Reaches.{AreDark, IsDark};
ghost use Rattle.redl_grammar.specs.Characters.{is_space};

use redl_spans::Span;
use std::alloc::{AllocError, Global};

/// For each span the first unit from its end on that isn't blank. `Err` means out of memory.
///
/// Each unit is looked at once.
pub(crate) fn dark_behind(
    alloc: Global,
    passed: &[u8],
    spans: &[Span],
) -> Result<Vec<usize>, AllocError>
    requires { AreInOrder spans.now }
    ensures count { IfOk result (λ dark. length dark.items ≡ length spans.now) }
    ensures value { IfOk result (λ dark. AreDark passed.now spans.now dark.items) }
{
    let mut dark = vec![in alloc; 0usize; spans.len()]?;
    let mut at = end_of(passed, spans);
    let mut next = at;
    for place in (0..spans.len()).rev() {
        let from = spans[place].to;
        next = dark_from(passed, from, at, next);
        at = from;
        dark[place] = next;
    }
    Ok(dark)
}

/// A unit behind all.
pub(crate) fn end_of(passed: &[u8], spans: &[Span]) -> usize
    requires { AreInOrder spans.now }
    ensures passed { length passed.now ≤ result }
    ensures spans { (k : ℕ) (none : Span) → k < length spans.now → (slice_index_or spans.now k none).to ≤ result }
{
    if spans.is_empty() {
        return passed.len();
    }
    passed.len().max(spans[spans.len() - 1].to)
}

// The first one from here on, where this is the first one from another unit on.
fn dark_from(passed: &[u8], from: usize, to: usize, dark: usize) -> usize
    requires bound { from ≤ to }
    requires dark { IsDark passed.now to dark }
    ensures { IsDark passed.now from result }
{
    let mut found = dark;
    for unit in (from..to).rev() {
        if !is_blank(passed, unit) {
            found = unit;
        }
    }
    found
}

#[tactic(auto, unfolding(redl_grammar::specs::Characters::is_space))]
fn is_blank(passed: &[u8], unit: usize) -> bool
    ensures { result ≡ is_space (slice_index passed.now unit) }
{
    match passed.get(unit) {
        Some(byte) => is_space(*byte),
        None => false,
    }
}

#[tactic(auto, unfolding(redl_grammar::specs::Characters::is_space))]
fn is_space(byte: u8) -> bool
    ensures { result ≡ is_space byte }
{
    matches!(byte, b' ' | b'\t' | b'\r' | b'\n')
}
