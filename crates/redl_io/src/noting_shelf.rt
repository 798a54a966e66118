//! A shelf that notes what it is asked for.

ghost use Rattle.std.specs.Prelude.{◌≡◌, ◌++◌, ◌∷◌, [], Some, OnErr, OnOk};
ghost use Rattle.redl_io.specs.Shelf.{request_for};

use crate::{Request, Shelf, ShelfError, Text};
use std::alloc::{AllocError, Global};
use std::marker::Model;

/// Fetches all texts from another shelf, and notes first what it is asked for. Where no memory is left for that, nothing is fetched.
#[derive(Drop)]
pub struct NotingShelf<F> {
    shelf: F,
    requests: Vec<Request>,
}

impl<F> Model for NotingShelf<F> {
    ghost use Rattle.std.specs.Prelude.{List};
    ghost use Rattle.redl_io.specs.declared.shelf.Request.{Request};

    ghost Value = { F × List Request };

    ghost view = { λ noting. (noting.shelf, noting.requests.items) };
}

impl<F: Shelf> NotingShelf<F> {
    /// A shelf before this one, which was asked for nothing yet. It takes no memory.
    pub fn new(alloc: Global, shelf: F) -> NotingShelf<F>
        ensures { result ≡ (shelf, []) }
    {
        NotingShelf {
            shelf,
            requests: Vec::new(alloc),
        }
    }

    /// What it was asked for, the first request first.
    pub fn requests(&self) -> &[Request]
        ensures { result.now ≡ self.now.1 }
    {
        &self.requests
    }
}

impl<F: Shelf> Shelf for NotingShelf<F> {
    ghost told = { λ noting. F.told noting.0 };

    ghost faults = { λ noting. F.faults noting.0 };

    ghost asked = { λ noting. Some noting.1 };

    fn fetch(&mut self, alloc: Global, name: &str, cap: usize) -> Result<Vec<u8>, ShelfError> {
        note(alloc, &mut self.requests, name, cap)?;
        self.shelf.fetch(alloc, name, cap)
    }
}

// Adds the request for this text.
fn note(
    alloc: Global,
    requests: &mut Vec<Request>,
    name: &str,
    cap: usize,
) -> Result<(), AllocError>
    ensures noted { OnOk result (requests.new.items ≡ requests.old.items ++ request_for name.now cap ∷ []) }
    ensures same { OnErr result (requests.new.items ≡ requests.old.items) }
{
    let name = Text::copy_of(alloc, name.as_bytes())?;
    requests.push(Request { name, cap })?;
    Ok(())
}
