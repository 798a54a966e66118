//! What a walk asks of each element.

ghost use Rattle.std.specs.Prelude.{◌≡◌, ◌++◌, ◌∷◌, ℕ, List, [], filter, map, IfOk, IsTrue, OnOk, false, true};
ghost use Rattle.std.specs.Option.{option_copied};
ghost use Rattle.redl_tree.specs.Model.IdleTexts.{is_idle_text, idle_nodes};
ghost use Rattle.redl_tree.specs.Model.Text.{text};
ghost use Rattle.redl_left.specs.declared.fact.Fact.{Fact};
ghost use Rattle.redl_left.specs.declared.rows.TheConstants.{NAMING, ROWS};
ghost use Rattle.redl_left.specs.Finds.{finds, rows_table};
ghost use Rattle.redl_left.specs.Lines.{naming};
ghost use Rattle.redl_left.specs.Named.{named_of};
ghost use Rattle.redl_left.specs.Naming.{lacks_naming};
ghost use Rattle.redl_left.specs.Search.{Agree, is_bare, listed_table, may_ask, rows_at, table_of};

use crate::fact::Fact;
use crate::find::{Asked, first_row};
use crate::named::Named;
use crate::row::{Row, Where};
use crate::rows::{NAMING, ROWS};
use redl_pairs::{lacks_pairs, lacks_word};
use std::alloc::{AllocError, Global};

/// The length of the shortest name that `NAMING` asks for.
pub(crate) const SHORTEST: usize = 7;

// The longest name for which the rows that may ask for it are listed.
const LONGEST: usize = 27;

/// What is asked.
#[derive(Drop)]
pub(crate) enum Search<'a> {
    /// What names comments, notes and authors (`NAMING`), where nothing is named yet.
    Naming,
    /// All that is left (`ROWS`). The rows are listed that may ask for an element whose name has no byte, one byte, and so on.
    Asking {
        by_length: Vec<Vec<Row>>,
        named: Named<'a>,
    },
}

impl<'a> Search<'a> {
    /// All that is left where these values are named. `Err` means out of memory.
    pub(crate) fn asking(alloc: Global, named: Named<'a>) -> Result<Search<'a>, AllocError>
        ensures { IfOk result (λ search. table_of search ≡ rows_table ROWS true (named_of named.entry)) }
    {
        let by_length = list_rows(alloc, &ROWS)?;
        Ok(Search::Asking { by_length, named })
    }

    /// Whether members of revisions are found by their kind.
    pub(crate) fn by_kind(&self) -> bool
        ensures { result ≡ (table_of self.now).by_kind }
    {
        match self {
            Search::Naming => false,
            Search::Asking { .. } => true,
        }
    }

    /// Whether no value is named for a fact.
    pub(crate) fn names_nothing(&self, fact: Fact) -> bool
        ensures { IsTrue result → (value : List ℕ) → (table_of self.now).named fact value ≡ false }
    {
        match self {
            Search::Naming => true,
            Search::Asking { named, .. } => named.names_nothing(fact),
        }
    }

    /// Whether a value is named for a fact.
    pub(crate) fn has(&self, fact: Fact, value: &[u8]) -> bool
        ensures { result ≡ (table_of self.now).named fact value.now }
    {
        match self {
            Search::Naming => false,
            Search::Asking { named, .. } => named.has(fact, value),
        }
    }

    /// Whether it is plain that no value with this first byte is named for a fact.
    pub(crate) fn none_begins(&self, fact: Fact, first: u8) -> bool
        ensures { IsTrue result → (rest : List ℕ) → (table_of self.now).named fact (first ∷ rest) ≡ false }
    {
        match self {
            Search::Naming => true,
            Search::Asking { named, .. } => named.none_begins(fact, first),
        }
    }

    /// The first row that asks for an element. `Err` means out of memory.
    pub(crate) fn first(&self, alloc: Global, asked: &Asked<'_>) -> Result<Option<&Row>, AllocError>
        ensures { IfOk result (λ found. option_copied found ≡ (table_of self.now).first asked.now.parent.now asked.now.space asked.now.local.now asked.now.tail.now) }
    {
        match self {
            Search::Naming => first_naming(alloc, asked),
            Search::Asking { by_length, named } => first_listed(alloc, by_length, named, asked),
        }
    }

    /// Whether it is plain that nothing is found in a text of idle elements.
    pub(crate) fn passes(&self, idle: &[u8]) -> bool
        requires idle { is_idle_text idle.now ≡ true }
        requires text { text (idle_nodes idle.now) ≡ idle.now }
        ensures { IsTrue result → (part parent : List ℕ) → finds (table_of self.now) part parent (idle_nodes idle.now) ≡ [] }
    {
        match self {
            Search::Naming => lacks_naming(idle),
            Search::Asking { .. } => false,
        }
    }
}

/// The first row of `NAMING` that asks for an element. `Err` means out of memory.
pub(crate) fn first_naming(
    alloc: Global,
    asked: &Asked<'_>,
) -> Result<Option<&'static Row>, AllocError>
    ensures { IfOk result (λ found. option_copied found ≡ naming.first asked.now.parent.now asked.now.space asked.now.local.now asked.now.tail.now) }
{
    let nothing = Named::none(alloc);
    first_row(alloc, &nothing, naming_for(asked.local.len()), asked)
}

// The rows of `NAMING` that may ask for an element whose name has `size` bytes: the first five ask for longer names than most have.
fn naming_for(size: usize) -> &'static [Row]
    ensures { Agree NAMING size result.now }
{
    if size < SHORTEST {
        &NAMING[5..]
    } else {
        &NAMING
    }
}

// Whether neither `author` nor `Reference` is in a text. One of them is where a comment, a note or an author is named.
fn lacks_naming(text: &[u8]) -> bool
    ensures { result ≡ lacks_naming text.now }
{
    // Mostly not even their first two bytes are there.
    if lacks_pairs(text, (b'a', b'u'), (b'R', b'e')) {
        return true;
    }
    lacks_word(text, b"author") && lacks_word(text, b"Reference")
}

// Whether an element has a name of one letter and no attribute.
fn is_bare(asked: &Asked<'_>) -> bool
    ensures { result ≡ is_bare asked.now.local.now asked.now.tail.now }
{
    asked.tail.is_empty() && asked.local.len() == 1
}

// The first row of `ROWS` that asks for an element. `Err` means out of memory.
fn first_listed<'r>(
    alloc: Global,
    by_length: &'r Vec<Vec<Row>>,
    named: &Named<'_>,
    asked: &Asked<'_>,
) -> Result<Option<&'r Row>, AllocError>
    ensures { IfOk result (λ found. option_copied found
        ≡ (listed_table (map (λ own. own.items) by_length.now.items) (named_of named.now)).first asked.now.parent.now asked.now.space asked.now.local.now asked.now.tail.now) }
{
    // Mostly it is a `p` or an `r` without an attribute.
    if is_bare(asked) {
        return Ok(None);
    }
    first_row(alloc, named, rows_for(by_length, asked.local.len()), asked)
}

// The rows of `ROWS` that may ask for an element whose name has `size` bytes.
fn rows_for(by_length: &Vec<Vec<Row>>, size: usize) -> &[Row]
    ensures { result.now ≡ rows_at (map (λ own. own.items) by_length.now.items) ROWS size }
{
    match by_length.get(size) {
        Some(rows) => rows.as_slice(),
        None => &ROWS,
    }
}

// Whether a row may ask for an element whose name has `size` bytes.
fn may_ask(row: &Row, size: usize) -> bool
    ensures { result ≡ may_ask size row.now }
{
    match row.place {
        Where::AnyWord => true,
        Where::Word(name) => name.text().len() == size,
        Where::Inside(_, name) => name.text().len() == size,
        Where::Part => 4 == size,
    }
}

// Adds a row if it may ask for such an element. `Err` means out of memory.
fn push_row(own: &mut Vec<Row>, row: &Row, size: usize) -> Result<(), AllocError>
    ensures { OnOk result (own.new.items ≡ own.old.items ++ filter (may_ask size) (row.now ∷ [])) }
{
    if !may_ask(row, size) {
        return Ok(());
    }
    own.push(*row)?;
    Ok(())
}

// The rows that may ask for such an element. `Err` means out of memory.
fn rows_of(alloc: Global, rows: &[Row], size: usize) -> Result<Vec<Row>, AllocError>
    ensures { IfOk result (λ own. own.items ≡ filter (may_ask size) rows.now) }
{
    let mut own = Vec::new(alloc);
    for row in rows {
        push_row(&mut own, row, size)?;
    }
    Ok(own)
}

// Those for each length of a name, up to the longest one. `Err` means out of memory.
fn list_rows(alloc: Global, rows: &[Row]) -> Result<Vec<Vec<Row>>, AllocError>
    ensures { IfOk result (λ lists. (n : ℕ) → Agree rows.now n (rows_at (map (λ own. own.items) lists.items) rows.now n)) }
{
    let mut lists = Vec::new(alloc);
    while lists.len() <= LONGEST {
        let size = lists.len();
        let own = rows_of(alloc, rows, size)?;
        lists.push(own)?;
    }
    Ok(lists)
}
