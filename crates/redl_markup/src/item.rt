//! Comments, processing instructions and CDATA.

ghost use Rattle.std.specs.Prelude.{◌≡◌, codes};
ghost use Rattle.redl_reading.specs.Steps.{Gives};
ghost use Rattle.redl_grammar.specs.Stretches.{is_xml, begins_item};
ghost use Rattle.redl_grammar.specs.ScanStretches.{comment_at, begins_with_space, instruction_end, instruction_at, cdata_at, item_at};

use crate::name::word;
use crate::space::is_space;
use redl_grammar::Section;
use redl_reading::{past, skip};

// The bytes after a comment, given those after its `<!--`.
#[tactic(auto, unfolding(redl_grammar::specs::ScanStretches::comment_at))]
fn comment(bytes: &[u8]) -> Option<&[u8]>
    ensures { Gives (λ rest. rest.now) result (comment_at bytes.now) }
{
    let rest = past(bytes, b"--")?;
    skip(rest, b">")
}

fn is_xml(name: &[u8]) -> bool
    ensures { result ≡ is_xml name.now }
{
    name.eq_ignore_ascii_case(b"xml")
}

fn begins_with_space(bytes: &[u8]) -> bool
    ensures { result ≡ begins_with_space bytes.now }
{
    match bytes {
        [first, ..] => is_space(*first),
        [] => false,
    }
}

// The bytes after an instruction, given those after its name.
#[tactic(auto, unfolding(redl_grammar::specs::ScanStretches::instruction_end))]
fn instruction_end(bytes: &[u8]) -> Option<&[u8]>
    ensures { Gives (λ rest. rest.now) result (instruction_end bytes.now) }
{
    if bytes.starts_with(b"?>") || begins_with_space(bytes) {
        past(bytes, b"?>")
    } else {
        None
    }
}

// The bytes after an instruction, given those after its `<?`.
#[tactic(auto, unfolding(redl_grammar::specs::ScanStretches::instruction_at))]
fn instruction(bytes: &[u8]) -> Option<&[u8]>
    ensures { Gives (λ rest. rest.now) result (instruction_at bytes.now) }
{
    let (name, rest) = word(bytes, true)?;
    if is_xml(name) {
        return None;
    }
    instruction_end(rest)
}

// The bytes after a CDATA section, given those after its `<![CDATA[`.
fn cdata(bytes: &[u8], place: Section) -> Option<&[u8]>
    ensures { Gives (λ rest. rest.now) result (cdata_at place bytes.now) }
{
    match place {
        Section::InElement => past(bytes, b"]]>"),
        Section::BeforeRoot | Section::AfterRoot => None,
    }
}

/// The bytes after a comment, an instruction or a CDATA section.
#[tactic(auto, unfolding(redl_grammar::specs::ScanStretches::item_at))]
pub(crate) fn item(bytes: &[u8], place: Section) -> Option<&[u8]>
    ensures { Gives (λ rest. rest.now) result (item_at place bytes.now) }
{
    if let Some(text) = skip(bytes, b"<!--") {
        return comment(text);
    }
    if let Some(text) = skip(bytes, b"<?") {
        return instruction(text);
    }
    let text = skip(bytes, b"<![CDATA[")?;
    cdata(text, place)
}

/// Whether the bytes begin with `<!` or `<?`, and so with no tag.
pub(crate) fn begins_item(bytes: &[u8]) -> bool
    ensures { result ≡ begins_item bytes.now }
{
    bytes.starts_with(b"<!") || bytes.starts_with(b"<?")
}
