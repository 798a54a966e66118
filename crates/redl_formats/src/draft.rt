//! Items with the text that was made of them.

ghost use Rattle.std.specs.Prelude.{◌≡◌, ◌+◌, ◌≤◌, ◌++◌, ◌∷◌, [], false, OnOk, OnErr, length, vec_len, vec_capacity};

use std::alloc::{AllocError, Global};

/// What a format was given. No code reads the items: a format keeps them so that `rows_so_far` and `lines_so_far` of its clauses
/// have a value.
#[derive(Drop)]
pub(crate) struct Draft<I> {
    /// The items so far.
    pub(crate) items: Vec<I>,
    /// The text that was made of them.
    pub(crate) text: Vec<u8>,
    /// Whether the format was closed.
    pub(crate) closed: bool,
}

impl<I: Drop> Draft<I> {
    /// No item, and this text.
    pub(crate) fn new(alloc: Global, text: Vec<u8>) -> Draft<I>
        ensures items { result.items.items ≡ [] }
        ensures text { result.text ≡ text }
        ensures open { result.closed ≡ false }
    {
        Draft {
            items: Vec::new(alloc),
            text,
            closed: false,
        }
    }

    /// Adds an item and its piece of the text, and keeps room for `room` more bytes. `Err` means out of memory: the item is
    /// dropped, and the rest is as before.
    pub(crate) fn add(&mut self, item: I, piece: &[u8], room: u32) -> Result<(), AllocError>
        ensures items { OnOk result (self.new.items.items ≡ self.old.items.items ++ item ∷ []) }
        ensures text { OnOk result (self.new.text.items ≡ self.old.text.items ++ piece.now) }
        ensures room { OnOk result (vec_len self.new.text + room ≤ vec_capacity self.new.text) }
        ensures same_items { OnErr result (self.new.items.items ≡ self.old.items.items) }
        ensures same_text { OnErr result (self.new.text.items ≡ self.old.text.items) }
        ensures closed { self.new.closed ≡ self.old.closed }
        ensures capacity { vec_capacity self.old.text ≤ vec_capacity self.new.text }
    {
        self.text.reserve(piece.len() + room as usize)?;
        self.items.push(item)?;
        self.text.extend_from_slice(piece).unwrap();
        Ok(())
    }
}
