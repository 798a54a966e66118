//! End tags that are looked for by their names.

ghost use Rattle.std.specs.Prelude.{◌≡◌, [], ◌++◌, IfSome};
ghost use Rattle.redl_reading.specs.Lists.{behind};
ghost use Rattle.redl_reading.specs.Steps.{Gives};
ghost use Rattle.redl_grammar.specs.Names.{name_text};
ghost use Rattle.redl_grammar.specs.Pieces.{piece_then, end_tag};
ghost use Rattle.redl_markup.specs.Views.{name_view};

use redl_markup::Name;
use redl_reading::skip;

// The bytes behind a word, where the bytes begin with it.
#[inline(always)]
fn behind_word<'a>(bytes: &'a [u8], word: &[u8]) -> Option<&'a [u8]>
    ensures { Gives (λ rest. rest.now) result (behind word.now bytes.now) }
{
    let mut rest = bytes;
    let mut word_rest = word;
    while let Some((wanted, word_next)) = word_rest.split_first() {
        let (byte, next) = rest.split_first()?;
        if byte != wanted {
            return None;
        }
        rest = next;
        word_rest = word_next;
    }
    Some(rest)
}

// The bytes behind this name, where the bytes begin with it.
#[inline(always)]
fn behind_name<'a>(bytes: &'a [u8], name: Name<'_>) -> Option<&'a [u8]>
    ensures { IfSome result (λ rest. bytes.now ≡ name_text (name_view name.entry) ++ rest.now) }
{
    if name.prefix.is_empty() {
        return behind_word(bytes, name.local);
    }
    let colon = behind_word(bytes, name.prefix)?;
    let local = skip(colon, b":")?;
    behind_word(local, name.local)
}

/// The bytes behind the end tag with this name and without white space, where the bytes begin with it. Most end tags are so, and names
/// are short, so they are found by comparing byte by byte.
#[inline(always)]
pub(crate) fn behind_end<'a>(bytes: &'a [u8], name: Name<'_>) -> Option<&'a [u8]>
    ensures { IfSome result (λ rest. bytes.now ≡ piece_then (end_tag (name_view name.entry) []) rest.now) }
{
    let opened = skip(bytes, b"</")?;
    let named = behind_name(opened, name)?;
    skip(named, b">")
}
