//! What an element may become that stands at a place.

ghost use Rattle.std.specs.Prelude.{◌≡◌, true};
ghost use Rattle.redl_tables.specs.Places.{is_row_list as is_row_list_by, is_cell_list as is_cell_list_by, is_shell as is_shell_by, may_go as may_go_by, goes_at as goes_at_by, is_block_para as is_block_para_by};
ghost use Rattle.redl_tree.specs.Decisions.Fates.{fate_of as fate_by};
ghost use Rattle.redl_tree.specs.Model.View.{tag_of, kids_of};
ghost use Rattle.redl_tree.specs.Roles.Kinds.{is_leave};

use crate::going::goes;
use crate::says::fate_of;
use redl_tree::{Elem, Fate, Lot, Place, Reach, Say, Word, is_word, is_wrapper};

/// Whether a place is a list of rows.
pub fn is_row_list(place: Place) -> bool
    ensures { result ≡ is_row_list_by place }
{
    place.reach == Reach::Direct && place.lot == Lot::Rows
}

/// Whether a place is a list of cells.
pub fn is_cell_list(place: Place) -> bool
    ensures { result ≡ is_cell_list_by place }
{
    place.reach == Reach::Direct && place.lot == Lot::Cells
}

/// Whether an element at this place is a shell: a content control or a custom XML element round rows or cells.
pub fn is_shell(elem: &Elem, place: Place) -> bool
    ensures { result ≡ is_shell_by place (tag_of elem.now) }
{
    is_wrapper(elem) && (is_row_list(place) || is_cell_list(place))
}

/// Whether an element at this place may be removed by decisions: it is a table, a row, a cell or a shell.
pub fn may_go(elem: &Elem, place: Place) -> bool
    ensures { result ≡ may_go_by place (tag_of elem.now) }
{
    is_word(elem, Word::Tc)
        || is_word(elem, Word::Tr)
        || is_word(elem, Word::Tbl)
        || is_shell(elem, place)
}

/// Whether an element at this place is a table, a row, a cell or a shell that goes. It takes no memory.
pub fn goes_at(elem: &Elem, place: Place, says: &[Say]) -> bool
    ensures { result ≡ goes_at_by says.now place (tag_of elem.now) (kids_of elem.now) }
{
    may_go(elem, place) && goes(elem, is_cell_list(place), says)
}

/// Whether an element at this place is a paragraph of a block list, and no decided member itself. So it may be joined.
pub fn is_block_para(elem: &Elem, place: Place, says: &[Say]) -> bool
    ensures is { result ≡ is_block_para_by says.now place (tag_of elem.now) }
    ensures left { result ≡ true → is_leave (fate_by says.now (tag_of elem.now)) ≡ true }
{
    is_word(elem, Word::P) && place.is_block_list() && fate_of(says, elem) == Fate::Leave
}
