//! What a walk knows.

ghost use Rattle.std.specs.Prelude.{◌≡◌, ◌+◌, IfOk, OnOk, Some, true, slice_set};
ghost use Rattle.redl_numbering.specs.Inside.Founds.{found_as};
ghost use Rattle.redl_page_numbers.specs.Walks.{begin, noted};

use crate::row::Row;
use redl_lists::Own;
use redl_numbering::{Counting, Found};
use std::alloc::{AllocError, Global};
use std::marker::Model;

/// What was counted, how many paragraphs the page shows so far, those with a number, and which nums are used.
#[derive(Drop)]
pub(crate) struct Walk {
    pub(crate) counting: Counting,
    pub(crate) paragraphs: usize,
    pub(crate) rows: Vec<Row>,
    pub(crate) used: Vec<bool>,
}

impl Model for Walk {
    ghost use Rattle.redl_page_numbers.specs.Walks.{Walk as Walked};

    ghost Value = { Walked };

    ghost view = { λ w. record { counts = w.counting; paragraphs = w.paragraphs; rows = w.rows.items; used = w.used.items } };
}

impl Walk {
    /// The start of a story, where these nums are used. `Err` means out of memory, here and below.
    pub(crate) fn begin(alloc: Global, used: Vec<bool>) -> Result<Walk, AllocError>
        ensures { IfOk result (λ walk. walk ≡ begin used.items) }
    {
        Ok(Walk {
            counting: Counting::new(alloc)?,
            paragraphs: 0,
            rows: Vec::new(alloc),
            used,
        })
    }

    /// One more paragraph is shown. `Err` also means that there are 2^64.
    pub(crate) fn show(&mut self) -> Result<(), AllocError>
        ensures { OnOk result (self.new ≡ record self.old { paragraphs = self.old.paragraphs + 1 }) }
    {
        self.paragraphs = self.paragraphs.checked_add(1).ok_or(AllocError)?;
        Ok(())
    }

    /// The paragraph that says this and was counted last has this num and this level.
    pub(crate) fn note(
        &mut self,
        alloc: Global,
        own: &Own,
        found: Found<'_>,
    ) -> Result<(), AllocError>
        ensures { OnOk result (self.new ≡ noted own.now self.old (Some (found_as found.entry))) }
    {
        let text = self.counting.number(alloc, found)?;
        self.rows.push(Row {
            paragraph: self.paragraphs,
            num: found.num,
            level: found.level,
            ends_section: own.ends_section,
            text,
        })?;
        use_num(found.num, &mut self.used);
        Ok(())
    }
}

// A num is used.
fn use_num(num: usize, used: &mut Vec<bool>)
    ensures { used.new.items ≡ slice_set used.old.items num true }
{
    if num < used.len() {
        used[num] = true;
    }
}
