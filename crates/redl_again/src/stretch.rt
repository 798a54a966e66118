//! Stretches of bytes that meet.

ghost use Rattle.std.specs.Prelude.{◌≡◌};
ghost use Rattle.redl_again.specs.Inside.Meeting.{brackets, brackets_of, closes};

/// The stretches before a node, which are one stretch.
#[derive(Clone, Copy)]
pub(crate) struct Before<'a> {
    /// How many `]` are at the end of all but the last one, up to 2.
    brackets: u8,
    /// The last one.
    text: &'a [u8],
}

impl<'a> Before<'a> {
    /// An element, or nothing.
    #[inline(always)]
    pub(crate) fn none() -> Before<'a>
        ensures { brackets_of result ≡ 0 }
    {
        Before {
            brackets: 0,
            text: b"",
        }
    }

    /// These, and one more. Also whether it forms `]]>` with them.
    #[inline(always)]
    pub(crate) fn with(self, text: &'a [u8]) -> (Before<'a>, bool)
        ensures brackets { brackets_of result.0 ≡ brackets (brackets_of self.entry) text.entry.now }
        ensures closes { result.1 ≡ closes (brackets_of self.entry) text.entry.now }
    {
        let brackets = brackets(self.brackets, self.text);
        (Before { brackets, text }, closes(brackets, text))
    }
}

// How many `]` are at the end of a text that follows so many, up to 2.
fn brackets(before: u8, text: &[u8]) -> u8
    ensures { result ≡ brackets before text.now }
{
    let Some((last, front)) = text.split_last() else {
        return before;
    };
    if *last != b']' {
        return 0;
    }
    let Some((second, _)) = front.split_last() else {
        return before.saturating_add(1).min(2);
    };
    if *second == b']' { 2 } else { 1 }
}

// Whether a text that follows so many `]` forms `]]>` with them.
fn closes(before: u8, text: &[u8]) -> bool
    ensures { result ≡ closes before text.now }
{
    match before {
        0 => false,
        1 => text.starts_with(b"]>"),
        _ => text.starts_with(b">") || text.starts_with(b"]>"),
    }
}
