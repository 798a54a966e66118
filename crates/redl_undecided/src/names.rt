//! The names of marks of changes.

ghost use Rattle.std.specs.Prelude.{◌≡◌};
ghost use Rattle.redl_undecided.specs.Undecided.{is_mark_name};

/// Whether an element of WordprocessingML with this local name marks a change, where it is in a revision or not.
#[inline(always)]
pub fn is_mark_name(name: &[u8]) -> bool
    ensures { result ≡ is_mark_name name.now }
{
    match name.len() {
        3 => name == b"ins".as_slice() || name == b"del".as_slice(),
        6 => name == b"moveTo".as_slice(),
        7 => name == b"cellIns".as_slice() || name == b"cellDel".as_slice(),
        8 => name == b"moveFrom".as_slice(),
        9 => {
            name == b"cellMerge".as_slice()
                || name == b"rPrChange".as_slice()
                || name == b"pPrChange".as_slice()
        }
        10 => name == b"trPrChange".as_slice() || name == b"tcPrChange".as_slice(),
        11 => name == b"tblPrChange".as_slice(),
        12 => name == b"sectPrChange".as_slice(),
        13 => name == b"tblPrExChange".as_slice() || name == b"tblGridChange".as_slice(),
        15 => name == b"numberingChange".as_slice(),
        20 => {
            name == b"customXmlInsRangeEnd".as_slice() || name == b"customXmlDelRangeEnd".as_slice()
        }
        22 => {
            name == b"customXmlInsRangeStart".as_slice()
                || name == b"customXmlDelRangeStart".as_slice()
        }
        23 => name == b"customXmlMoveToRangeEnd".as_slice(),
        25 => {
            name == b"customXmlMoveToRangeStart".as_slice()
                || name == b"customXmlMoveFromRangeEnd".as_slice()
        }
        27 => name == b"customXmlMoveFromRangeStart".as_slice(),
        _ => false,
    }
}
