//! What one element is, by the rows.

ghost use Rattle.std.specs.Prelude.{◌≡◌, OnOk};
ghost use Rattle.redl_tree.specs.Model.View.{nodes_of};
ghost use Rattle.redl_left.specs.Finds.{found_idle, found_plain, found_value, is_nothing};
ghost use Rattle.redl_left.specs.Lines.{noted_all};
ghost use Rattle.redl_left.specs.Search.{table_of};
ghost use Rattle.redl_left.specs.Seen.{tables_of};

use crate::find::Asked;
use crate::names_told::note_names;
use crate::row::{Row, Value};
use crate::search::Search;
use crate::seen::Seen;
use crate::told::value_of;
use redl_tree::{Node, Space};
use std::alloc::AllocError;

/// What a walk carries down.
#[derive(Clone, Copy)]
pub(crate) struct Below<'p, 's, 'n> {
    /// What is asked of elements.
    pub(crate) search: &'s Search<'n>,
    /// The name of the part in which the nodes are.
    pub(crate) part: &'p [u8],
}

/// Notes a find of a row, of which this is told. `Err` means out of memory.
pub(crate) fn note_value(
    part: &[u8],
    row: &Row,
    value: &[u8],
    seen: &mut Seen,
) -> Result<(), AllocError>
    ensures { OnOk result (tables_of seen.new ≡ noted_all (tables_of seen.old) (found_value part.now row.now value.now)) }
{
    if is_nothing(&row.value, value) {
        return Ok(());
    }
    seen.note(row.fact, part, value)
}

fn is_nothing(value: &Value, told: &[u8]) -> bool
    ensures { result ≡ is_nothing value.now told.now }
{
    match value {
        Value::Author | Value::Shown => told.is_empty(),
        Value::Nothing | Value::Attribute(_) | Value::Made | Value::Held(_) | Value::Lead(_) => {
            false
        }
    }
}

/// Notes what an element is, which is in no revision. `Err` means out of memory.
pub(crate) fn note_plain(
    below: Below<'_, '_, '_>,
    asked: &Asked<'_>,
    kids: &[Node],
    seen: &mut Seen,
) -> Result<(), AllocError>
    ensures { OnOk result (tables_of seen.new
        ≡ noted_all (tables_of seen.old) (found_plain (table_of below.entry.search.now) below.entry.part.now asked.now.parent.now asked.now.space asked.now.local.now asked.now.tail.now (nodes_of kids.now))) }
{
    let alloc = seen.alloc;
    match below.search.first(alloc, asked)? {
        Some(row) => {
            let value = value_of(alloc, below.part, &row.value, asked, kids)?;
            note_value(below.part, row, value.as_bytes(), seen)
        }
        None => Ok(()),
    }
}

/// Notes what an idle element is, and the names in its tail. `Err` means out of memory.
pub(crate) fn note_idle(
    below: Below<'_, '_, '_>,
    local: &[u8],
    tail: &[u8],
    seen: &mut Seen,
) -> Result<(), AllocError>
    ensures { OnOk result (tables_of seen.new
        ≡ noted_all (tables_of seen.old) (found_idle (table_of below.entry.search.now) below.entry.part.now local.now tail.now)) }
{
    let asked = Asked {
        parent: b"",
        space: Space::W,
        local,
        tail,
    };
    note_plain(below, &asked, &[], seen)?;
    note_names(below.search, below.part, tail, seen)
}
