//! References to headers, footers and notes: what they name, and by which id.

ghost use Rattle.std.specs.Prelude.{◌≡◌};
ghost use Rattle.redl_tree.specs.Roles.Words.{name_of};
ghost use Rattle.redl_order.specs.References.{is_on, named_kind, named_number};
ghost use Rattle.redl_order.specs.Order.{is_same, local_name};

use redl_io::Text;
use redl_tree::Word;

/// What a document names by references.
#[derive(Clone, Copy, Debug, PartialEq, Eq)]
pub enum Named {
    /// A header.
    Header,
    /// A footer.
    Footer,
    /// A note at the foot of a page.
    Footnote,
    /// A note at the end of a section or of the document.
    Endnote,
}

/// A reference.
#[derive(Drop)]
pub struct Reference {
    /// What it names.
    pub named: Named,
    /// Its id, as it is written.
    pub id: Text,
    /// Whether the text that follows it is its sign, in place of a number.
    pub own_sign: bool,
}

impl Named {
    /// The local name of such a story or note.
    pub(crate) fn word(self) -> Word
        ensures { name_of result ≡ local_name self }
    {
        match self {
            Named::Header => Word::Hdr,
            Named::Footer => Word::Ftr,
            Named::Footnote => Word::Footnote,
            Named::Endnote => Word::Endnote,
        }
    }

    fn number(self) -> u8
        ensures { result ≡ named_number self }
    {
        match self {
            Named::Header => 0,
            Named::Footer => 1,
            Named::Footnote => 2,
            Named::Endnote => 3,
        }
    }

    /// Whether both name the same.
    pub fn is(self, other: Named) -> bool
        ensures { result ≡ is_same self other }
    {
        self.number() == other.number()
    }
}

/// What an element of WordprocessingML with this local name names.
pub(crate) fn named_kind(local: &[u8]) -> Option<Named>
    ensures { result ≡ named_kind local.now }
{
    if local == b"headerReference".as_slice() {
        return Some(Named::Header);
    }
    if local == b"footerReference".as_slice() {
        return Some(Named::Footer);
    }
    if local == b"footnoteReference".as_slice() {
        return Some(Named::Footnote);
    }
    if local == b"endnoteReference".as_slice() {
        return Some(Named::Endnote);
    }
    None
}

/// Whether the value of an attribute says yes.
pub(crate) fn is_on(value: &[u8]) -> bool
    ensures { result ≡ is_on value.now }
{
    if value.is_empty() {
        return false;
    }
    if value == b"0".as_slice() {
        return false;
    }
    if value == b"false".as_slice() {
        return false;
    }
    value != b"off".as_slice()
}
