//! Formats that give an array of JSON.

ghost use Rattle.std.specs.Prelude.{◌≡◌, ◌++◌, ◌∷◌, IfOk, OnOk, OnErr, [], false, true};
ghost use Rattle.redl_formats.specs.Formats.{array_of, comma_after};

use crate::draft::Draft;
use crate::piece::{Item, ItemText};
use std::alloc::{AllocError, Global};
use std::marker::{Model, PhantomData};
use std::mem;

// What closing adds.
const END: &[u8] = b"]\n";

/// An array with the pieces of the items (RFC 8259), without white space between, which closing ends. Contracts see the items
/// and whether it is closed.
#[derive(Drop)]
pub struct ArrayFormat<I: Item, P: ItemText<I>> {
    alloc: Global,
    draft: Draft<I>,
    // Room for the piece of the next item.
    room: Vec<u8>,
    pieces: PhantomData<P>,
}

impl<I: Item, P: ItemText<I>> Model for ArrayFormat<I, P> {
    ghost use Rattle.std.specs.Prelude.{◌≡◌};
    ghost use Rattle.redl_formats.specs.Formats.{Given, IsArrayDraft};

    ghost Value = { Given I };

    ghost view = { λ format. record { items = format.draft.items.items; closed = format.draft.closed } };

    ghost invariant = { λ format. IsArrayDraft P.piece_of format.draft.items.items format.draft.closed format.draft.text };
}

impl<I: Item, P: ItemText<I>> ArrayFormat<I, P> {
    /// The format without items. `Err` means out of memory.
    pub fn new(alloc: Global) -> Result<ArrayFormat<I, P>, AllocError>
        ensures { IfOk result (λ format. format ≡ record { items = []; closed = false }) }
    {
        let mut text = Vec::with_capacity(alloc, 1 + END.len())?;
        text.push(b'[')?;
        Ok(ArrayFormat {
            alloc,
            draft: Draft::new(alloc, text),
            room: Vec::new(alloc),
            pieces: PhantomData,
        })
    }

    /// Adds a copy of an item. `Err` means out of memory, and then the format is as before.
    pub fn add(&mut self, item: &I) -> Result<(), AllocError>
        requires open { self.old.closed ≡ false }
        requires item { I.is_item item.now }
        ensures taken { OnOk result (self.new ≡ record { items = self.old.items ++ item.now ∷ []; closed = false }) }
        ensures unchanged { OnErr result (self.new ≡ self.old) }
    {
        let item = item.copy(self.alloc)?;
        self.take(item)
    }

    /// Takes an item after the others. `Err` means out of memory: the item is dropped, and the format is as before.
    pub fn take(&mut self, item: I) -> Result<(), AllocError>
        requires open { self.old.closed ≡ false }
        requires item { I.is_item item }
        ensures taken { OnOk result (self.new ≡ record { items = self.old.items ++ item ∷ []; closed = false }) }
        ensures unchanged { OnErr result (self.new ≡ self.old) }
    {
        let room = mem::replace(&mut self.room, Vec::new(self.alloc));
        let front = comma_after(room, &self.draft.items)?;
        let piece = P::put(front, &item)?;
        self.draft.add(item, &piece, END.len() as u32)?;
        self.room = piece;
        Ok(())
    }

    /// Closes it. It takes no memory.
    pub fn close(&mut self)
        requires { self.old.closed ≡ false }
        ensures { self.new ≡ record { items = self.old.items; closed = true } }
    {
        self.draft.text.extend_from_slice(END).unwrap();
        self.draft.closed = true;
    }

    /// The text so far. It takes no memory.
    pub fn text(&self) -> &[u8]
        ensures { result.now ≡ array_of P.piece_of self.now.items self.now.closed }
    {
        &self.draft.text
    }
}

// A comma, unless there is no item. It takes the place of what `room` has. `Err` means out of memory.
fn comma_after<I>(room: Vec<u8>, items: &[I]) -> Result<Vec<u8>, AllocError>
    ensures { IfOk result (λ front. front.items ≡ comma_after items.now) }
{
    let mut front = room;
    front.clear();
    if !items.is_empty() {
        front.push(b',')?;
    }
    Ok(front)
}
