//! Listing revisions in a format.

ghost use Rattle.std.specs.Prelude.{◌≡◌, ◌+◌, ◌++◌, ◌∷◌, ◌<◌, [], All, Bool, List, drop, length, true, false, IfOk, OnOk, OnErr};
ghost use Rattle.std.specs.Str.{IsUtf8};
ghost use Rattle.redl_listing.specs.Rows.{IsRow, first_detail, first_shown, listed_rows, rows_of};
ghost use Rattle.redl_excerpts.specs.Details.{IsDetail};
ghost use Rattle.redl_formats.specs.Formats.{first_named, without_named, IsListed};
ghost use Rattle.redl_listing.specs.declared.row.Row.{Row};

use crate::format::{RowError, RowFormat};
use crate::named::take_named;
use crate::row::Row;
use redl_excerpts::Detail;
use redl_index::Index;
use redl_io::Text;
use redl_join::Verdict;
use std::alloc::{AllocError, Global};
use std::mem;

/// Adds a format after the others. None of them is closed or has a row. `Err` means out of memory.
pub fn add_format(
    formats: &mut Vec<Box<dyn RowFormat>>,
    format: Box<dyn RowFormat>,
) -> Result<(), AllocError>
    requires fresh { (is_closed format ≡ false) × (rows_so_far format ≡ []) }
    requires others { All (λ format. (is_closed format ≡ false) × (rows_so_far format ≡ [])) formats.old.items }
    ensures added { OnOk result (formats.new.items ≡ formats.old.items ++ format ∷ []) }
    ensures kept { OnErr result (formats.new.items ≡ formats.old.items) }
    ensures fresh { All (λ format. (is_closed format ≡ false) × (rows_so_far format ≡ [])) formats.new.items }
{
    formats.push(format)?;
    Ok(())
}

/// What is listed: the revisions of a package, and what is known of each in the order of their numbers.
#[derive(Clone, Copy)]
pub struct Listed<'a> {
    /// The name of each part that a revision is in. Each name is UTF-8.
    pub parts: &'a [Text],
    /// The revisions.
    pub index: &'a Index,
    /// What was decided on each.
    pub verdicts: &'a [Verdict],
    /// Whether each is shown. One of which nothing is said is.
    pub shown: &'a [bool],
}

/// Makes the listing of the revisions in the format with this name, and says whether there is one.
///
/// It takes the first format with the name out of the list, gives it a row for each revision in the order of their numbers,
/// closes it, sets `made` to its text, and drops it. `Ok(false)` comes exactly where no format has the name, and then nothing
/// changes. `Err` means out of memory: the format is gone, and `made` is empty.
///
/// `made` is empty at the call. `pkg_names` has the name of each part that a revision is in, and each name is UTF-8. `verdicts`
/// has one for each revision. No format in the list is closed or has a row. The rows have no details.
pub fn list(
    alloc: Global,
    formats: &mut Vec<Box<dyn RowFormat>>,
    name: &str,
    pkg_names: &[Text],
    index: &Index,
    verdicts: &[Verdict],
    made: &mut Vec<u8>,
) -> Result<bool, AllocError>
    requires empty { made.old.items ≡ [] }
    requires names { All IsUtf8 pkg_names.now }
    requires parts { All (λ revision. revision.part < length pkg_names.now) index.now }
    requires verdicts { length verdicts.now ≡ length index.now }
    requires fresh { All (λ format. (is_closed format ≡ false) × (rows_so_far format ≡ [])) formats.old.items }

    // The first format with the name made the text of all rows, or there is none.
    ensures listed { IfOk result (λ found. IsListed
        (first_named (λ format. format_name format) name.now formats.old.items)
        (λ format. text_for format (rows_of pkg_names.now index.now verdicts.now) true)
        found made.new.items) }
    ensures unmade { OnErr result (made.new.items ≡ []) }

    // The list has lost that one format and no other.
    ensures taken { formats.new.items ≡ without_named (λ format. format_name format) name.now formats.old.items }
    ensures unchanged { IfOk result (λ found. found ≡ false → formats.new.items ≡ formats.old.items) }
{
    let Some(format) = take_named(formats, name) else {
        return Ok(false);
    };
    let listed = Listed {
        parts: pkg_names,
        index,
        verdicts,
        shown: &[],
    };
    list_in(alloc, format, &listed, Vec::new(alloc), made)?;
    Ok(true)
}

/// Makes the listing of the revisions that are shown, in this format, which goes. `details` has their details in the order of
/// numbers. A row whose detail is missing has none. `Err` means out of memory, and `made` is empty.
pub fn list_in(
    alloc: Global,
    format: Box<dyn RowFormat>,
    listed: &Listed<'_>,
    details: Vec<Detail>,
    made: &mut Vec<u8>,
) -> Result<(), AllocError>
    requires empty { made.old.items ≡ [] }
    requires names { All IsUtf8 listed.now.parts.now }
    requires parts { All (λ revision. revision.part < length listed.now.parts.now) listed.now.index.now }
    requires verdicts { length listed.now.verdicts.now ≡ length listed.now.index.now }
    requires details { All IsDetail details.items }
    requires fresh { (is_closed format ≡ false) × (rows_so_far format ≡ []) }
    ensures listed { OnOk result (made.new.items ≡ text_for format (listed_rows listed.now details.items) true) }
    ensures unmade { OnErr result (made.new.items ≡ []) }
{
    let mut format = format;
    let mut details = details;
    add_rows(alloc, &mut format, listed, &mut details)?;
    finish(&mut format, made)?;
    Ok(())
}

// Gives the format a row for each revision that is shown, with its detail, which it takes.
fn add_rows(
    alloc: Global,
    format: &mut Box<dyn RowFormat>,
    listed: &Listed<'_>,
    details: &mut Vec<Detail>,
) -> Result<(), AllocError>
    requires names { All IsUtf8 listed.now.parts.now }
    requires parts { All (λ revision. revision.part < length listed.now.parts.now) listed.now.index.now }
    requires verdicts { length listed.now.verdicts.now ≡ length listed.now.index.now }
    requires details { All IsDetail details.old.items }
    requires open { is_closed format.old ≡ false }
    ensures rows { OnOk result (rows_so_far format.new ≡ rows_so_far format.old ++ listed_rows listed.now details.old.items) }
    ensures open { OnOk result (is_closed format.new ≡ false) }
    ensures same_format { OnOk result ((rows : List Row) → text_for format.new rows true ≡ text_for format.old rows true) }
{
    let revisions = listed.index.revisions();
    for place in 0..revisions.len() {
        let detail = take_detail(alloc, details, place)?;
        if is_shown(listed.shown, place) {
            let verdict = listed.verdicts[place];
            let row = Row::of(alloc, &revisions[place], verdict, listed.parts, detail)?;
            add_row(format, row)?;
        }
    }
    Ok(())
}

// Whether the row at this place is shown.
fn is_shown(shown: &[bool], place: usize) -> bool
    ensures { result ≡ first_shown (drop place shown.now) }
{
    match shown.get(place) {
        Some(is_shown) => *is_shown,
        None => true,
    }
}

// Takes the detail at this place, if there is one, and leaves none there. `Err` means out of memory.
fn take_detail(alloc: Global, details: &mut Vec<Detail>, place: usize) -> Result<Detail, AllocError>
    requires { All IsDetail details.old.items }
    ensures value { IfOk result (λ detail. detail ≡ first_detail (drop place details.old.items)) }
    ensures utf8 { IfOk result IsDetail }
    ensures left { OnOk result (drop (place + 1) details.new.items ≡ drop (place + 1) details.old.items) }
    ensures all_utf8 { OnOk result (All IsDetail details.new.items) }
{
    let none = Detail::none(alloc)?;
    match details.get_mut(place) {
        Some(detail) => Ok(mem::replace(detail, none)),
        None => Ok(none),
    }
}

fn add_row(format: &mut Box<dyn RowFormat>, row: Row) -> Result<(), AllocError>
    requires open { is_closed format.old ≡ false }
    requires row { IsRow row }
    ensures taken { OnOk result (rows_so_far format.new ≡ rows_so_far format.old ++ row ∷ []) }
    ensures open { is_closed format.new ≡ false }
    ensures same_format { (rows : List Row) (closed : Bool) → text_for format.new rows closed ≡ text_for format.old rows closed }
{
    match format.row(row) {
        Ok(()) => Ok(()),
        Err(RowError) => Err(AllocError),
    }
}

// Closes the format, and adds its text to what was made. `Err` means out of memory.
fn finish(format: &mut Box<dyn RowFormat>, made: &mut Vec<u8>) -> Result<(), AllocError>
    requires { is_closed format.old ≡ false }
    ensures text { OnOk result (made.new.items ≡ made.old.items ++ text_for format.old (rows_so_far format.old) true) }
    ensures unmade { OnErr result (made.new.items ≡ made.old.items) }
{
    format.close();
    made.extend_from_slice(format.text())
}
