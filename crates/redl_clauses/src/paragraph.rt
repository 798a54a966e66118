//! The counting of a paragraph.

ghost use Rattle.std.specs.Prelude.{◌≡◌, IfOk, OnOk};
ghost use Rattle.redl_reading.specs.Steps.{Gives};
ghost use Rattle.redl_tree.specs.Model.View.{kids_of};
ghost use Rattle.redl_lists.specs.Owns.{own_of};
ghost use Rattle.redl_numbering.specs.Known.{IsKnown};
ghost use Rattle.redl_numbering.specs.Inside.Founds.{found_as};
ghost use Rattle.redl_clauses.specs.Walks.{only_ends_section, paragraph_counted, paragraph_found};

use crate::says::show_something;
use redl_lists::Own;
use redl_numbering::{Counting, Found, Lists};
use redl_tree::Elem;
use std::alloc::{AllocError, Global};

/// How many styles of a chain are looked at.
const LONGEST_CHAIN: usize = 100;

/// Counts a paragraph that says this, and answers its num and its level, if it is counted. `Err` means out of memory.
pub fn count_paragraph<'t>(
    alloc: Global,
    lists: &Lists<'t>,
    own: &Own,
    paragraph: &Elem,
    counting: &mut Counting,
) -> Result<Option<Found<'t>>, AllocError>
    requires known { IsKnown lists.now }
    requires own { own.now ≡ own_of (kids_of paragraph.now) }
    ensures counts { OnOk result (counting.new ≡ paragraph_counted lists.now.tables.now (kids_of paragraph.now) counting.old) }
    ensures found { IfOk result (λ found. Gives found_as found (paragraph_found lists.now.tables.now (kids_of paragraph.now))) }
{
    if only_ends_section(own, paragraph)? {
        counting.pass(alloc)?;
        return Ok(None);
    }
    let found = counting.count(alloc, lists, own, LONGEST_CHAIN)?;
    Ok(found)
}

// Whether a paragraph that says this only ends a section, and a reader sees nothing of it.
fn only_ends_section(own: &Own, paragraph: &Elem) -> Result<bool, AllocError>
    requires { own.now ≡ own_of (kids_of paragraph.now) }
    ensures { IfOk result (λ only. only ≡ only_ends_section (kids_of paragraph.now)) }
{
    Ok(own.ends_section && !show_something(paragraph.kids())?)
}
