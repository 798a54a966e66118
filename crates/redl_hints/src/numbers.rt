//! Numbers, as journals and the command line have them.

// The largest number, 4294967295, has so many digits.
const MOST_DIGITS: usize = 10;

/// Whether a text is a number as a journal has it: digits alone, without a zero in front, up to 4294967295.
pub(crate) fn is_number(text: &[u8]) -> bool {
    let is_written = match text {
        [] => false,
        [b'0'] => true,
        [b'0', ..] => false,
        _ => text.iter().all(u8::is_ascii_digit),
    };
    is_written
        && (text.len() < MOST_DIGITS
            || (text.len() == MOST_DIGITS && text <= b"4294967295".as_slice()))
}
