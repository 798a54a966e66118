//! Tags without attributes, of a prefix and a name of one letter each, that are passed over: `<w:r>` and `<w:b/>`. No list of attributes
//! is made for them.

ghost use Rattle.std.specs.Prelude.{◌≡◌, [], ◌++◌, Bool, true, IfOk, IfSome, IsNone, Some};
ghost use Rattle.redl_grammar.specs.declared.section.Section.TheVariants.{InElement};
ghost use Rattle.redl_grammar.specs.ScanPieces.{piece_at};
ghost use Rattle.redl_tree.specs.declared.kinds.Space.TheVariants.{W};
ghost use Rattle.redl_markup.specs.Views.{name_view};
ghost use Rattle.redl_xml.specs.Inside.Passing.{HoldsOf, IsIdleIn, IsLetter, PassesBare, bare_tag};

use crate::namespaces::element_space;
use crate::spaces::Spaces;
use redl_markup::Name;
use redl_reading::skip;
use redl_tree::{Space, is_idle_name};
use std::alloc::AllocError;

// A letter of ASCII, and the bytes after it.
#[inline(always)]
fn letter(bytes: &[u8]) -> Option<(&[u8], &[u8])>
    ensures { IfSome result (λ x. IsLetter x.0.now × (bytes.now ≡ x.0.now ++ x.1.now)) }
{
    match bytes.split_first() {
        Some((first, _)) if first.is_ascii_alphabetic() => Some(bytes.split_at(1)),
        _ => None,
    }
}

// Whether the fifth byte may end such a tag, which is seen at once.
#[inline(always)]
fn is_short(bytes: &[u8]) -> bool {
    matches!(bytes, [_, _, _, _, b'>' | b'/', ..])
}

// The name of such a tag, whether it is a start tag, and the bytes after it.
#[inline(always)]
fn letter_tag(bytes: &[u8]) -> Option<(Name<'_>, bool, &[u8])>
    ensures { IfSome result (λ x. piece_at InElement bytes.now ≡ Some (bare_tag x.1 (name_view x.0), x.2.now)) }
{
    let rest = skip(bytes, b"<")?;
    let (prefix, rest) = letter(rest)?;
    let rest = skip(rest, b":")?;
    let (local, end) = letter(rest)?;
    let name = Name { prefix, local };
    if let Some(rest) = skip(end, b">") {
        return Some((name, true, rest));
    }
    let rest = skip(end, b"/>")?;
    Some((name, false, rest))
}

// Whether an element with this name and no attributes may be passed over wherever it stands, if all in it may.
#[inline(always)]
fn is_idle_bare<'a>(scopes: &mut Spaces<'a>, name: Name<'a>) -> bool
    ensures idle { result ≡ true → (in_run : Bool) → HoldsOf (IsIdleIn scopes.old) in_run W (name_view name.entry) [] }
    ensures same { scopes.new ≡ scopes.old }
{
    if !is_idle_name(name.local, false) {
        return false;
    }
    match element_space(scopes, name) {
        Some(space) => space == Space::W,
        None => false,
    }
}

/// Takes such a tag to the open elements, if the bytes begin with one that may be passed over. Gives the bytes after it.
#[inline(always)]
pub(crate) fn pass_bare<'a>(
    scopes: &mut Spaces<'a>,
    names: &mut Vec<Name<'a>>,
    bytes: &'a [u8],
) -> Result<Option<&'a [u8]>, AllocError>
    ensures passed { IfOk result (λ o. IfSome o (λ rest. PassesBare scopes.old names.old.items names.new.items bytes.entry.now rest.now)) }
    ensures none { IfOk result (λ o. IsNone o → names.new.items ≡ names.old.items) }
    ensures same { scopes.new ≡ scopes.old }
{
    if !is_short(bytes) {
        return Ok(None);
    }
    let Some((name, opens, rest)) = letter_tag(bytes) else {
        return Ok(None);
    };
    if !is_idle_bare(scopes, name) {
        return Ok(None);
    }
    if opens {
        names.push(name)?;
    }
    Ok(Some(rest))
}
