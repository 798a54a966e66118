//! A format of the tests' own, of any name: a number sign for each row, and a newline when it is closed. It may refuse rows.

ghost use Rattle.std.specs.Prelude.{◌≡◌, IfOk, [], false};

use redl_formats::Item;
use redl_listing::{Row, RowError, RowFormat};
use std::alloc::{AllocError, Global};
use std::marker::Model;

#[derive(Drop)]
pub(crate) struct CountFormat {
    alloc: Global,
    title: String,
    most: usize,
    rows: Vec<Row>,
    text: Vec<u8>,
    closed: bool,
}

impl Model for CountFormat {
    ghost use Rattle.std.specs.String.{string_bytes};
    ghost use Rattle.redl_app_tests.specs.Counts.{Count, IsCountDraft};

    ghost Value = { Count };

    ghost view = { λ format. record { title = string_bytes format.title; rows = format.rows.items; closed = format.closed } };

    ghost invariant = { λ format. IsCountDraft format.rows.items format.closed format.text };
}

impl CountFormat {
    // A format that takes each row.
    pub(crate) fn new(alloc: Global, title: &str) -> Result<CountFormat, AllocError>
        ensures { IfOk result (λ format. format ≡ record { title = title.now; rows = []; closed = false }) }
    {
        CountFormat::taking(alloc, title, usize::MAX)
    }

    // A format that takes this number of rows and refuses the next ones.
    pub(crate) fn taking(alloc: Global, title: &str, most: usize) -> Result<CountFormat, AllocError>
        ensures { IfOk result (λ format. format ≡ record { title = title.now; rows = []; closed = false }) }
    {
        let title = String::from_str(alloc, title)?;
        let text = Vec::with_capacity(alloc, 1)?;
        Ok(CountFormat {
            alloc,
            title,
            most,
            rows: Vec::new(alloc),
            text,
            closed: false,
        })
    }
}

impl RowFormat for CountFormat {
    ghost use Rattle.redl_app_tests.specs.Counts.{count_listing};

    ghost format_name = { λ format. format.title };

    ghost rows_so_far = { λ format. format.rows };

    ghost is_closed = { λ format. format.closed };

    ghost text_for = { λ _. count_listing };

    fn name(&self) -> &str {
        self.title.as_str()
    }

    fn row(&mut self, row: Row) -> Result<(), RowError> {
        if self.text.len() >= self.most {
            return Err(RowError);
        }
        self.text.reserve(2)?;
        if self.rows.push(row).is_err() {
            return Err(RowError);
        }
        self.text.push(b'#').unwrap();
        Ok(())
    }

    fn close(&mut self) {
        self.text.push(b'\n').unwrap();
        self.closed = true;
    }

    fn text(&self) -> &[u8] {
        &self.text
    }
}
