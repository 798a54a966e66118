//! What a format of listings promises, whoever wrote it, and the names of the five that the program brings.

ghost use Rattle.std.specs.Prelude.{◌≡◌, ◌++◌, ◌∷◌, [], List, ℕ, Bool, true, false, OnOk, OnErr};
ghost use Rattle.redl_formats.specs.Formats.{lines_of, array_of};
ghost use Rattle.redl_listing.specs.Rows.{IsRow, shows_details};
ghost use Rattle.redl_listing.specs.declared.row.Row.{Row};

use crate::full_rows::FullRows;
use crate::json_rows::JsonRows;
use crate::named::Named;
use crate::row::Row;
use crate::tab_rows::TabRows;
use crate::text_rows::TextRows;
use crate::words_rows::WordsRows;
use redl_formats::{ArrayFormat, ItemText, LineFormat};
use std::alloc::AllocError;

/// The format `text`.
pub type TextFormat = LineFormat<Row, TextRows>;

/// The format `tab`.
pub type TabFormat = LineFormat<Row, TabRows>;

/// The format `words`.
pub type WordsFormat = LineFormat<Row, WordsRows>;

/// The format `json`.
pub type JsonFormat = ArrayFormat<Row, JsonRows>;

/// The format `full`.
pub type FullFormat = ArrayFormat<Row, FullRows>;

/// Whether the format of the program with this name shows details.
pub fn shows_details(name: &str) -> bool
    ensures { result ≡ shows_details name.now }
{
    name == "words" || name == "full"
}

/// A row was not taken, since an allocation failed.
#[derive(Clone, Copy, Debug, PartialEq, Eq, thiserror::Error)]
#[error("out of memory")]
pub struct RowError;

impl From<AllocError> for RowError {
    fn from(_: AllocError) -> RowError {
        RowError
    }
}

/// A listing that is being made: rows come in one after another, then it is closed, and at each moment it has a text.
///
/// A format is a definition, which gives a text for every list of rows, closed or not. No call changes this definition or the
/// name.
pub trait RowFormat: Drop {
    // Its name.
    ghost format_name: { Self → List ℕ };

    // The rows so far.
    ghost rows_so_far: { Self → List Row };

    // It was closed.
    ghost is_closed: { Self → Bool };

    // The text that the format gives for any rows, closed or not.
    ghost text_for: { Self → List Row → Bool → List ℕ };

    /// Its name. It takes no memory.
    fn name(&self) -> &str
        ensures { result.now ≡ format_name self.now };

    /// Takes a row after the others. The row's kind has a name, its author and part are UTF-8, and its moment lies in the
    /// years 0000 to 9999.
    ///
    /// `Err` means out of memory: the row is dropped, and the format is as before.
    fn row(&mut self, row: Row) -> Result<(), RowError>
        requires open { is_closed self.old ≡ false }
        requires row { IsRow row }
        ensures taken { OnOk result (rows_so_far self.new ≡ rows_so_far self.old ++ row ∷ []) }
        ensures unchanged { OnErr result (rows_so_far self.new ≡ rows_so_far self.old) }
        ensures open { is_closed self.new ≡ false }
        ensures same_name { format_name self.new ≡ format_name self.old }
        ensures same_format { (rows : List Row) (closed : Bool) → text_for self.new rows closed ≡ text_for self.old rows closed };

    /// Closes the listing. It takes no memory and can't fail.
    fn close(&mut self)
        requires { is_closed self.old ≡ false }
        ensures closed { is_closed self.new ≡ true }
        ensures same_rows { rows_so_far self.new ≡ rows_so_far self.old }
        ensures same_name { format_name self.new ≡ format_name self.old }
        ensures same_format { (rows : List Row) (closed : Bool) → text_for self.new rows closed ≡ text_for self.old rows closed };

    /// The text for the rows so far. It takes no memory.
    fn text(&self) -> &[u8]
        ensures { result.now ≡ text_for self.now (rows_so_far self.now) (is_closed self.now) };
}

impl Named for Box<dyn RowFormat> {
    ghost name_of = { λ format. (RowFormat-box format).format_name format.value };

    fn title(&self) -> &str {
        self.name()
    }
}

impl<P: ItemText<Row>> RowFormat for LineFormat<Row, P> {
    ghost format_name = { λ _. P.title };

    ghost rows_so_far = { λ format. format.items };

    ghost is_closed = { λ format. format.closed };

    ghost text_for = { λ _. lines_of P.piece_of };

    fn name(&self) -> &str {
        P::title()
    }

    fn row(&mut self, row: Row) -> Result<(), RowError> {
        self.take(row)?;
        Ok(())
    }

    fn close(&mut self) {
        LineFormat::close(self);
    }

    fn text(&self) -> &[u8] {
        LineFormat::text(self)
    }
}

impl<P: ItemText<Row>> RowFormat for ArrayFormat<Row, P> {
    ghost format_name = { λ _. P.title };

    ghost rows_so_far = { λ format. format.items };

    ghost is_closed = { λ format. format.closed };

    ghost text_for = { λ _. array_of P.piece_of };

    fn name(&self) -> &str {
        P::title()
    }

    fn row(&mut self, row: Row) -> Result<(), RowError> {
        self.take(row)?;
        Ok(())
    }

    fn close(&mut self) {
        ArrayFormat::close(self);
    }

    fn text(&self) -> &[u8] {
        ArrayFormat::text(self)
    }
}
