//! What is seen in a paragraph and is no character.

ghost use Rattle.std.specs.Prelude.{◌≡◌};
ghost use Rattle.redl_bare.specs.BareText.{object_name};

/// What is seen in a paragraph and is no character.
#[derive(Clone, Copy, Debug, PartialEq, Eq)]
pub enum Object {
    /// A picture.
    Picture,
    /// The reference of a note at the foot of a page.
    FootnoteReference,
    /// The reference of a note at the end.
    EndnoteReference,
    /// A symbol of a font.
    Symbol,
    /// A tab to a place.
    PlaceTab,
    /// A hyphen that shows where a line may break.
    SoftHyphen,
    /// The begin of a field, before its code.
    FieldBegin,
    /// The end of its code, before its result.
    FieldSeparate,
    /// The end of a field.
    FieldEnd,
}

impl Object {
    /// Its name in a line.
    pub(crate) fn name(self) -> &'static [u8]
        ensures { result.now ≡ object_name self }
    {
        match self {
            Object::Picture => b"picture",
            Object::FootnoteReference => b"footnote",
            Object::EndnoteReference => b"endnote",
            Object::Symbol => b"symbol",
            Object::PlaceTab => b"ptab",
            Object::SoftHyphen => b"softHyphen",
            Object::FieldBegin => b"field begin",
            Object::FieldSeparate => b"field separate",
            Object::FieldEnd => b"field end",
        }
    }
}
