//! The levels of the nums that paragraphs have.

ghost use Rattle.std.specs.Prelude.{◌≡◌, ◌++◌, IfOk, OnOk, false, slice_get, unwrap_or};
ghost use Rattle.redl_numbering.specs.Known.{IsKnown};
ghost use Rattle.redl_numbering.specs.Nums.{list_place};
ghost use Rattle.redl_page_numbers.specs.Levels.{gathered, level_row, level_rows, levels_at, num_levels, used_levels};

use crate::row::{LevelRow, Place};
use redl_lists::{Level, Num, Tables};
use redl_numbering::{Lists, Used};
use std::alloc::{AllocError, Global};

/// The levels of those of the nums that are used. `Err` means out of memory, here and below.
pub(crate) fn used_levels(
    alloc: Global,
    tables: &Tables,
    lists: &Lists<'_>,
    used: &[bool],
) -> Result<Vec<LevelRow>, AllocError>
    requires known { IsKnown lists.now }
    requires same { lists.now.tables.now ≡ tables.now }
    ensures { IfOk result (λ levels. levels.items ≡ used_levels tables.now used.now) }
{
    let mut rows = Vec::new(alloc);
    for place in 0..tables.nums.rows().len() {
        add_num(alloc, tables, lists, used, place, &mut rows)?;
    }
    Ok(rows)
}

// Adds the levels of the num in this place, if it is used.
fn add_num(
    alloc: Global,
    tables: &Tables,
    lists: &Lists<'_>,
    used: &[bool],
    place: usize,
    rows: &mut Vec<LevelRow>,
) -> Result<(), AllocError>
    requires known { IsKnown lists.now }
    requires same { lists.now.tables.now ≡ tables.now }
    ensures { OnOk result (rows.new.items ≡ rows.old.items ++ num_levels tables.now used.now place) }
{
    if !is_used(used, place) {
        return Ok(());
    }
    match tables.nums.rows().get(place) {
        Some(num) => add_levels(alloc, tables, lists, place, num, rows),
        None => Ok(()),
    }
}

fn is_used(used: &[bool], place: usize) -> bool
    ensures { result ≡ unwrap_or (slice_get used.now place) false }
{
    match used.get(place) {
        Some(used) => *used,
        None => false,
    }
}

// Adds the levels of a num that stands here, if it has a list.
fn add_levels(
    alloc: Global,
    tables: &Tables,
    lists: &Lists<'_>,
    place: usize,
    num: &Num,
    rows: &mut Vec<LevelRow>,
) -> Result<(), AllocError>
    requires known { IsKnown lists.now }
    requires same { lists.now.tables.now ≡ tables.now }
    ensures { OnOk result (rows.new.items ≡ rows.old.items ++ levels_at tables.now place num.now (list_place tables.now num.now)) }
{
    let Some(at) = lists.list_place(num) else {
        return Ok(());
    };
    match tables.lists.rows().get(at) {
        Some(list) => add_nine(
            alloc,
            Place {
                num: place,
                list: at,
            },
            Used {
                overrides: num.overrides.rows(),
                levels: list.levels.rows(),
            },
            rows,
        ),
        None => Ok(()),
    }
}

fn add_nine(
    alloc: Global,
    place: Place,
    used: Used<'_>,
    rows: &mut Vec<LevelRow>,
) -> Result<(), AllocError>
    ensures { OnOk result (rows.new.items ≡ rows.old.items ++ gathered (level_rows place used.entry.overrides.now used.entry.levels.now) 9) }
{
    for level in 0..9 {
        add_level(alloc, place, used, level, rows)?;
    }
    Ok(())
}

fn add_level(
    alloc: Global,
    place: Place,
    used: Used<'_>,
    level: usize,
    rows: &mut Vec<LevelRow>,
) -> Result<(), AllocError>
    ensures { OnOk result (rows.new.items ≡ rows.old.items ++ level_rows place used.entry.overrides.now used.entry.levels.now level) }
{
    match used.level(level) {
        Some(said) => {
            let row = row_of(alloc, place, used, level, said)?;
            rows.push(row)?;
            Ok(())
        }
        None => Ok(()),
    }
}

fn row_of(
    alloc: Global,
    place: Place,
    used: Used<'_>,
    level: usize,
    said: &Level,
) -> Result<LevelRow, AllocError>
    ensures { IfOk result (λ row. row ≡ level_row place used.entry.overrides.now used.entry.levels.now level said.now) }
{
    Ok(LevelRow {
        num: place.num,
        list: place.list,
        level,
        start: used.start(level),
        again: used.start_override(level),
        restart: used.restart(level),
        format: said.format,
        is_legal: said.is_legal,
        has_picture: said.has_picture,
        text: said.text.copy(alloc)?,
    })
}
