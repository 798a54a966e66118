//! What a byte between tags is in: character data, a reference, a comment, an instruction or CDATA.

ghost use Rattle.std.specs.Prelude.{◌≡◌, ◌∷◌, ◌||◌, codes, if◌then◌else◌};
ghost use Rattle.redl_reading.specs.Lists.{begins};
ghost use Rattle.redl_shown.specs.declared.parts.Part.TheVariants.{Characters};
ghost use Rattle.redl_shown.specs.Shown.{in_part, is_in_characters, after_byte, after_first, after_character};

use redl_reading::skip;

/// What a byte is in.
#[derive(Clone, Copy, Debug, PartialEq, Eq)]
pub(crate) enum Part {
    /// Characters that are shown as they are.
    Characters,
    /// A reference to a character, as `&amp;`.
    Reference,
    /// A comment, which shows nothing.
    Comment,
    /// A processing instruction, which shows nothing.
    Instruction,
    /// A CDATA section, whose characters are shown as they are.
    Cdata,
}

/// What comes next.
#[derive(Clone, Copy, Debug)]
pub struct Here {
    /// What the next byte is in.
    pub(crate) part: Part,
    /// How many bytes of an opening or of an ending come before it.
    pub(crate) skip: u32,
}

/// What the first byte of a node is in.
pub fn start() -> Here
    ensures { result ≡ in_part Characters 0 }
{
    in_part(Part::Characters, 0)
}

fn in_part(part: Part, skip: u32) -> Here
    ensures { result ≡ in_part part skip }
{
    Here { part, skip }
}

/// In character data, and not in an ending.
pub(crate) fn is_in_characters(here: Here) -> bool
    ensures { result ≡ is_in_characters here }
{
    here.part == Part::Characters && here.skip == 0
}

/// What the byte after the next one is in.
pub(crate) fn after_byte(here: Here, first: u8, rest: &[u8], left: &[u8]) -> Here
    requires { left.now ≡ first ∷ rest.now }
    ensures { result ≡ after_byte here first rest.now }
{
    if here.skip == 0 {
        return after_first(here.part, first, rest, left);
    }
    in_part(here.part, here.skip - 1)
}

fn after_first(part: Part, first: u8, rest: &[u8], left: &[u8]) -> Here
    requires { left.now ≡ first ∷ rest.now }
    ensures { result ≡ after_first part first rest.now }
{
    match part {
        Part::Characters => after_character(first, rest, left),
        Part::Reference if first == b';' => in_part(Part::Characters, 0),
        Part::Reference => in_part(Part::Reference, 0),
        Part::Comment => after_ended(Part::Comment, begins(left, b"-->"), 2),
        Part::Instruction => after_ended(Part::Instruction, begins(left, b"?>"), 1),
        Part::Cdata => after_ended(Part::Cdata, begins(left, b"]]>"), 2),
    }
}

fn after_ended(part: Part, ends: bool, skip: u32) -> Here
    ensures { result ≡ (if ends then in_part Characters skip else in_part part 0) }
{
    if ends {
        return in_part(Part::Characters, skip);
    }
    in_part(part, 0)
}

fn after_character(first: u8, rest: &[u8], left: &[u8]) -> Here
    requires { left.now ≡ first ∷ rest.now }
    ensures { result ≡ after_character first rest.now }
{
    if first == b'&' {
        in_part(Part::Reference, 0)
    } else if begins(left, b"<!--") {
        in_part(Part::Comment, 3)
    } else if begins(left, b"<![CDATA[") {
        in_part(Part::Cdata, 8)
    } else if begins(left, b"<?") {
        in_part(Part::Instruction, 1)
    } else {
        in_part(Part::Characters, 0)
    }
}

/// Whether a comment, CDATA or an instruction begins here.
pub(crate) fn begins_item(bytes: &[u8]) -> bool
    ensures { result ≡ (begins (codes "<!--") bytes.now || begins (codes "<![CDATA[") bytes.now || begins (codes "<?") bytes.now) }
{
    begins(bytes, b"<!--") || begins(bytes, b"<![CDATA[") || begins(bytes, b"<?")
}

/// Whether the bytes begin with a word.
pub(crate) fn begins(bytes: &[u8], word: &[u8]) -> bool
    ensures { result ≡ begins word.now bytes.now }
{
    match skip(bytes, word) {
        Some(_) => true,
        None => false,
    }
}
