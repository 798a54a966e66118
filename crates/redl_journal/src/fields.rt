//! The fields of a line, and the tests of each.
ghost use Rattle.std.specs.Prelude.{◌≡◌, length};
ghost use Rattle.std.specs.List.{list_all};
ghost use Rattle.std.specs.Str.{is_utf8};
ghost use Rattle.redl_journal.specs.Journals.{is_visible};
ghost use Rattle.redl_journal.specs.Reading.{number_in, word_in, digest_in, is_reviewer};

use crate::entry::Word;
use itoa::Buffer;
use std::str;

/// The number that decimal digits write. `None` exactly where they have a sign or a leading zero, are no digits, or write a number
/// above 4294967295.
pub fn read_number(digits: &[u8]) -> Option<u32>
    ensures { number_in digits.now ≡ result }
{
    let Ok(text) = str::from_utf8(digits) else {
        return None;
    };
    let Ok(number) = text.parse::<u32>() else {
        return None;
    };
    let mut buffer = Buffer::new();
    if buffer.format(number) == text {
        Some(number)
    } else {
        None
    }
}

/// The decision that a word names.
#[tactic(auto, unfolding(crate::specs::Reading::word_in))]
pub(crate) fn word(text: &[u8]) -> Option<Word>
    ensures { word_in text.now ≡ result }
{
    if text == b"accept".as_slice() {
        Some(Word::Accept)
    } else if text == b"reject".as_slice() {
        Some(Word::Reject)
    } else if text == b"withdraw".as_slice() {
        Some(Word::Withdraw)
    } else {
        None
    }
}

/// The digest that 64 lower-case hexadecimal digits write.
pub(crate) fn digest(digits: &[u8]) -> Option<[u8; 32]>
    ensures { digest_in digits.now ≡ result }
{
    let mut digest = [0; 32];
    let Ok(()) = hex::decode_to_slice(digits, &mut digest) else {
        return None;
    };
    let mut written = [0; 64];
    let Ok(()) = hex::encode_to_slice(&digest, &mut written) else {
        return None;
    };
    if written.as_slice() == digits {
        Some(digest)
    } else {
        None
    }
}

// Whether no byte is a control character of ASCII.
#[tactic(auto, unfolding(crate::specs::Journals::is_visible))]
fn are_visible(bytes: &[u8]) -> bool
    ensures { result ≡ list_all is_visible bytes.now }
{
    bytes.iter().all(|byte| *byte >= 32 && *byte != 127)
}

// Whether the bytes are UTF-8.
fn is_text(bytes: &[u8]) -> bool
    ensures { result ≡ is_utf8 bytes.now }
{
    str::from_utf8(bytes).is_ok()
}

/// Whether the bytes are a reviewer's name: 1 to 255 bytes of UTF-8 without control characters of ASCII.
#[tactic(auto, unfolding(crate::specs::Reading::is_reviewer))]
pub fn is_reviewer(name: &[u8]) -> bool
    ensures { result ≡ is_reviewer name.now }
{
    name.len() >= 1 && name.len() <= 255 && are_visible(name) && is_text(name)
}
