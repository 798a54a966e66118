//! Which tables, rows, cells and shells go.

ghost use Rattle.std.specs.Prelude.{◌≡◌, true, false};
ghost use Rattle.std.specs.List.{list_all};
ghost use Rattle.redl_tables.specs.Owners.{shell_unit, unit_goes, unit_name};
ghost use Rattle.redl_tree.specs.Roles.Lists.{into, is_wrapper};
ghost use Rattle.redl_tree.specs.Roles.Names.{is};
ghost use Rattle.redl_tree.specs.Decisions.Tables.{goes as goes_by, all_of_some, cell_is_cut, has_own, own, row_goes};
ghost use Rattle.redl_tree.specs.Model.View.{nodes_of, tag_of, kids_of};
ghost use Rattle.redl_tree.specs.declared.lists.Reach.TheVariants.{Direct};

use crate::owned::{Unit, finding_of_nodes, goes_itself};
use redl_tree::{Elem, Node, Reach, Say, Word, is_word};

/// Whether a table, a row, a cell or a shell goes (ECMA-376 Part 1, 17.4, 17.13.5).
///
/// A cell goes where a revision of it is cut. A row goes where one of its own is cut, or where it has cells and all go. A
/// table goes where it has rows and all go. A shell is a content control or a custom XML element round rows or cells: it
/// goes with its cells where it is in a row, and else with its rows. Of a table, a row or a cell `in_row` says nothing. It
/// takes no memory.
pub fn goes(elem: &Elem, in_row: bool, says: &[Say]) -> bool
    ensures gone { result ≡ goes_by says.now in_row (tag_of elem.now) (kids_of elem.now) }

    // What stays has a cell or a row that stays, where it had one.
    ensures row { result ≡ false → is "tr" (tag_of elem.now) ≡ true → has_own "tc" Direct (kids_of elem.now) ≡ true
        → list_all (cell_is_cut says.now) (own "tc" Direct (kids_of elem.now)) ≡ false }
    ensures table { result ≡ false → is "tbl" (tag_of elem.now) ≡ true → has_own "tr" Direct (kids_of elem.now) ≡ true
        → list_all (row_goes says.now) (own "tr" Direct (kids_of elem.now)) ≡ false }
    ensures shell { result ≡ false → is_wrapper (tag_of elem.now) ≡ true
        → has_own (unit_name (shell_unit in_row)) (into Direct (tag_of elem.now)) (kids_of elem.now) ≡ true
        → list_all (unit_goes (shell_unit in_row) says.now) (own (unit_name (shell_unit in_row)) (into Direct (tag_of elem.now)) (kids_of elem.now)) ≡ false }
{
    if is_word(elem, Word::Tc) {
        goes_itself(elem.kids(), Unit::Cell, says)
    } else if is_word(elem, Word::Tr) {
        goes_itself(elem.kids(), Unit::Row, says)
    } else if is_word(elem, Word::Tbl) {
        all_go(elem.kids(), Unit::Row, Reach::Direct, says)
    } else if in_row {
        all_go(elem.kids(), Unit::Cell, Reach::Direct.into(elem), says)
    } else {
        all_go(elem.kids(), Unit::Row, Reach::Direct.into(elem), says)
    }
}

// Whether these nodes hold own rows or cells, and all of them go.
fn all_go(nodes: &[Node], unit: Unit, reach: Reach, says: &[Say]) -> bool
    ensures { result ≡ all_of_some (unit_goes unit says.now) (own (unit_name unit) reach (nodes_of nodes.now)) }
{
    finding_of_nodes(nodes, unit, reach, says).is_gone()
}
