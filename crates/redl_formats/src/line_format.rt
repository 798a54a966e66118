//! Formats that give a line for each item.

ghost use Rattle.std.specs.Prelude.{◌≡◌, ◌++◌, ◌∷◌, IfOk, OnOk, OnErr, [], false, true};
ghost use Rattle.redl_formats.specs.Formats.{lines_of};

use crate::draft::Draft;
use crate::piece::{Item, ItemText};
use std::alloc::{AllocError, Global};
use std::marker::{Model, PhantomData};
use std::mem;

/// The pieces of the items, one after another, to which closing adds nothing. Contracts see the items and whether it is closed.
#[derive(Drop)]
pub struct LineFormat<I: Item, P: ItemText<I>> {
    alloc: Global,
    draft: Draft<I>,
    // Room for the piece of the next item.
    room: Vec<u8>,
    pieces: PhantomData<P>,
}

impl<I: Item, P: ItemText<I>> Model for LineFormat<I, P> {
    ghost use Rattle.std.specs.Prelude.{◌≡◌};
    ghost use Rattle.redl_formats.specs.Formats.{Given, lines_of};

    ghost Value = { Given I };

    ghost view = { λ format. record { items = format.draft.items.items; closed = format.draft.closed } };

    ghost invariant = { λ format. format.draft.text.items ≡ lines_of P.piece_of format.draft.items.items format.draft.closed };
}

impl<I: Item, P: ItemText<I>> LineFormat<I, P> {
    /// The format without items. It takes no memory, and no `Err` comes.
    pub fn new(alloc: Global) -> Result<LineFormat<I, P>, AllocError>
        ensures { IfOk result (λ format. format ≡ record { items = []; closed = false }) }
    {
        Ok(LineFormat {
            alloc,
            draft: Draft::new(alloc, Vec::new(alloc)),
            room: Vec::new(alloc),
            pieces: PhantomData,
        })
    }

    /// Adds a copy of an item. `Err` means out of memory, and then the format is as before.
    pub fn add(&mut self, item: &I) -> Result<(), AllocError>
        requires open { self.old.closed ≡ false }
        requires item { I.is_item item.now }
        ensures taken { OnOk result (self.new ≡ record { items = self.old.items ++ item.now ∷ []; closed = false }) }
        ensures unchanged { OnErr result (self.new ≡ self.old) }
    {
        let item = item.copy(self.alloc)?;
        self.take(item)
    }

    /// Takes an item after the others. `Err` means out of memory: the item is dropped, and the format is as before.
    pub fn take(&mut self, item: I) -> Result<(), AllocError>
        requires open { self.old.closed ≡ false }
        requires item { I.is_item item }
        ensures taken { OnOk result (self.new ≡ record { items = self.old.items ++ item ∷ []; closed = false }) }
        ensures unchanged { OnErr result (self.new ≡ self.old) }
    {
        let mut room = mem::replace(&mut self.room, Vec::new(self.alloc));
        room.clear();
        let piece = P::put(room, &item)?;
        self.draft.add(item, &piece, 0)?;
        self.room = piece;
        Ok(())
    }

    /// Closes it. It takes no memory.
    pub fn close(&mut self)
        requires { self.old.closed ≡ false }
        ensures { self.new ≡ record { items = self.old.items; closed = true } }
    {
        self.draft.closed = true;
    }

    /// The text so far. It takes no memory.
    pub fn text(&self) -> &[u8]
        ensures { result.now ≡ lines_of P.piece_of self.now.items self.now.closed }
    {
        &self.draft.text
    }
}
