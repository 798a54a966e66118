//! Characters that a terminal is not given.

ghost use Rattle.std.specs.Prelude.{◌≡◌, ◌+◌, ◌≤◌, length};
ghost use Rattle.redl_terminal.specs.Masks.{begins_pair, begins_triple, hidden_length, is_control, is_hidden_pair, is_hidden_triple, is_plain, is_within};

use crate::extent::Extent;

/// Whether no hidden character begins with a byte.
pub(crate) fn is_plain(extent: Extent, byte: u8) -> bool
    ensures { result ≡ is_plain extent byte }
{
    !(is_control(extent, byte) || byte == 194 || byte == 216 || byte == 226 || byte == 239)
}

// Whether a byte is a control character of ASCII.
fn is_control(extent: Extent, byte: u8) -> bool
    ensures { result ≡ is_control extent byte }
{
    match extent {
        Extent::Field => byte < 32 || byte == 127,
        Extent::Lines => (byte < 32 && !(byte == b'\t' || byte == b'\n')) || byte == 127,
    }
}

/// How many bytes the hidden character has that begins a text with this first byte. 0 where none does.
#[tactic(auto, unfolding(crate::specs::Masks::hidden_length))]
pub(crate) fn hidden_length(extent: Extent, first: u8, rest: &[u8]) -> usize
    ensures value { result ≡ hidden_length extent first rest.now }
    ensures within { result ≤ length rest.now + 1 }
{
    if is_control(extent, first) {
        1
    } else if begins_pair(first, rest) {
        2
    } else if begins_triple(first, rest) {
        3
    } else {
        0
    }
}

fn begins_pair(first: u8, rest: &[u8]) -> bool
    ensures { result ≡ begins_pair first rest.now }
{
    match rest {
        [second, ..] => is_hidden_pair(first, *second),
        [] => false,
    }
}

fn begins_triple(first: u8, rest: &[u8]) -> bool
    ensures { result ≡ begins_triple first rest.now }
{
    match rest {
        [second, third, ..] => is_hidden_triple(first, *second, *third),
        _ => false,
    }
}

fn is_within(first: u8, last: u8, byte: u8) -> bool
    ensures { result ≡ is_within first last byte }
{
    first <= byte && byte <= last
}

// U+0080 to U+009F, and U+061C.
fn is_hidden_pair(a: u8, b: u8) -> bool
    ensures { result ≡ is_hidden_pair a b }
{
    (a == 194 && is_within(128, 159, b)) || (a == 216 && b == 156)
}

// U+200B to U+200F, U+2028 to U+202E, U+2060 to U+206F, and U+FEFF.
fn is_hidden_triple(a: u8, b: u8, c: u8) -> bool
    ensures { result ≡ is_hidden_triple a b c }
{
    (a == 226 && b == 128 && (is_within(139, 143, c) || is_within(168, 174, c)))
        || (a == 226 && b == 129 && is_within(160, 175, c))
        || (a == 239 && b == 187 && c == 191)
}
