//! What elements show at their tags.

ghost use Rattle.std.specs.Prelude.{◌≡◌, ◌∷◌, []};
ghost use Rattle.redl_tree.specs.Roles.Names.{is_any, of_w};
ghost use Rattle.redl_bare.specs.Units.{short_texts, object_texts, sign_texts, field_part, end_texts};
ghost use Rattle.redl_bare.specs.Inside.Idle.{tag_with};
ghost use Rattle.redl_bare.specs.Inside.Texts.{short_of};

use crate::object::Object;
use crate::place::BarePlace;
use crate::values::value_in;

/// What an element shows.
#[derive(Clone, Copy)]
pub(crate) enum Short {
    /// Nothing.
    Nothing,
    /// These characters.
    Characters(&'static [u8]),
    /// This object.
    One(Object),
}

/// What an element of W with this local name and tail, which is no field, shows.
pub(crate) fn start_of(local: &[u8], tail: &[u8]) -> Short
    ensures { short_of result ≡ short_texts (tag_with local.now tail.now) }
{
    if shows_nothing(local) {
        return Short::Nothing;
    }
    if local == b"tab".as_slice() {
        return Short::Characters(b"\t");
    }
    if local == b"br".as_slice() || local == b"cr".as_slice() {
        return Short::Characters(b"\n");
    }
    if local == b"noBreakHyphen".as_slice() {
        return Short::Characters("\u{2011}".as_bytes());
    }
    object_of(local, tail)
}

// Whether an element has one of the names that most elements have, and so shows nothing at its start.
fn shows_nothing(local: &[u8]) -> bool
    ensures { result ≡ is_any ("r" ∷ "t" ∷ "p" ∷ []) (of_w local.now) }
{
    local == b"r".as_slice() || local == b"t".as_slice() || local == b"p".as_slice()
}

/// What is shown after what is at a place.
pub(crate) fn end_of(place: BarePlace) -> Short
    ensures { short_of result ≡ end_texts place }
{
    match place {
        BarePlace::InField => Short::One(Object::FieldEnd),
        _ => Short::Nothing,
    }
}

fn object_of(local: &[u8], tail: &[u8]) -> Short
    ensures { short_of result ≡ object_texts (tag_with local.now tail.now) }
{
    if is_picture(local) {
        return Short::One(Object::Picture);
    }
    if local == b"footnoteReference".as_slice() {
        return Short::One(Object::FootnoteReference);
    }
    if local == b"endnoteReference".as_slice() {
        return Short::One(Object::EndnoteReference);
    }
    sign_of(local, tail)
}

fn is_picture(local: &[u8]) -> bool
    ensures { result ≡ is_any ("drawing" ∷ "pict" ∷ "object" ∷ []) (of_w local.now) }
{
    local == b"drawing".as_slice() || local == b"pict".as_slice() || local == b"object".as_slice()
}

fn sign_of(local: &[u8], tail: &[u8]) -> Short
    ensures { short_of result ≡ sign_texts (tag_with local.now tail.now) }
{
    if local == b"sym".as_slice() {
        return Short::One(Object::Symbol);
    }
    if local == b"ptab".as_slice() {
        return Short::One(Object::PlaceTab);
    }
    if local == b"softHyphen".as_slice() {
        return Short::One(Object::SoftHyphen);
    }
    if local == b"fldChar".as_slice() {
        return part_of(value_in(tail, b"fldCharType"));
    }
    Short::Nothing
}

fn part_of(kind: &[u8]) -> Short
    ensures { short_of result ≡ field_part kind.now }
{
    if kind == b"begin".as_slice() {
        return Short::One(Object::FieldBegin);
    }
    if kind == b"separate".as_slice() {
        return Short::One(Object::FieldSeparate);
    }
    if kind == b"end".as_slice() {
        return Short::One(Object::FieldEnd);
    }
    Short::Nothing
}
