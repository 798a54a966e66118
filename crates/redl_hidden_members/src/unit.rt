//! Places in a line that take no text.

ghost use Rattle.std.specs.Prelude.{◌≡◌};
ghost use Rattle.redl_tree.specs.Model.View.{tag_of};
ghost use Rattle.redl_hidden_members.specs.Units.{is_unit, is_unit_name};

use redl_tree::{Elem, Space};

/// Whether an element takes a place in a line.
pub(crate) fn is_unit(elem: &Elem) -> bool
    ensures { result ≡ is_unit (tag_of elem.now) }
{
    match elem.space() {
        Space::W => is_unit_name(elem.local()),
        _ => false,
    }
}

/// Whether an element of WordprocessingML with this local name does.
pub(crate) fn is_unit_name(name: &[u8]) -> bool
    ensures { result ≡ is_unit_name name.now }
{
    match name.len() {
        2 => name == b"br".as_slice() || name == b"cr".as_slice(),
        3 => name == b"tab".as_slice() || name == b"sym".as_slice(),
        4 => name == b"ptab".as_slice() || name == b"pict".as_slice(),
        6 => name == b"object".as_slice(),
        7 => name == b"drawing".as_slice(),
        10 => name == b"softHyphen".as_slice(),
        13 => name == b"noBreakHyphen".as_slice(),
        16 => name == b"endnoteReference".as_slice(),
        17 => name == b"footnoteReference".as_slice(),
        _ => false,
    }
}
