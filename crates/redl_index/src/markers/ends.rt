//! The positions of the ends of paragraphs, in the order of their starts.

ghost use Rattle.std.specs.Prelude.{◌≡◌, ◌++◌, set, if◌then◌else◌, OnOk};
ghost use Rattle.redl_tree.specs.Roles.Names.{is};
ghost use Rattle.redl_tree.specs.Model.View.{tag_of};
ghost use Rattle.redl_index.specs.Markers.Ends.{one_end};

use redl_tree::{Elem, Word, is_word};
use std::alloc::AllocError;

/// Notes where an element ends, if it is a paragraph. `Err` means out of memory.
pub(crate) fn note_end(ends: &mut Vec<u64>, elem: &Elem, at: u64) -> Result<(), AllocError>
    ensures { OnOk result (ends.new.items ≡ ends.old.items ++ one_end (tag_of elem.now) at) }
{
    if is_word(elem, Word::P) {
        ends.push(at)?;
    }
    Ok(())
}

/// Corrects the noted end of an element, at this place among the ends, if it is a paragraph.
pub(crate) fn mend_end(ends: &mut Vec<u64>, elem: &Elem, place: usize, at: u64)
    ensures { ends.new.items ≡ (if is "p" (tag_of elem.now) then set ends.old.items place at else ends.old.items) }
{
    if is_word(elem, Word::P) {
        if let Some(end) = ends.get_mut(place) {
            *end = at;
        }
    }
}
