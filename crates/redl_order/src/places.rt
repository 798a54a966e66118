//! Notes by their ids.

ghost use Rattle.std.specs.Prelude.{◌≡◌, ◌++◌, ◌∷◌, [], ℕ, List, bytes_eq, filter, if◌then◌else◌, OnOk};
ghost use Rattle.redl_opc.specs.Elements.{element_of};
ghost use Rattle.redl_order.specs.References.{id_in};
ghost use Rattle.redl_order.specs.Order.{has_id};
ghost use Rattle.redl_order.specs.Borrowed.{all_borrowed};
ghost use Rattle.redl_order.specs.Inside.Places.{notes_at};

use crate::values::value_in;
use redl_tree::Elem;
use std::alloc::{AllocError, Global};
use std::collections::BTreeMap;

/// Notes by their ids.
#[derive(Drop)]
pub(crate) struct Places<'n, 'a> {
    /// The allocator of the lists.
    pub(crate) alloc: Global,
    /// The notes with each id, in the order of the text.
    pub(crate) notes: BTreeMap<&'n [u8], Vec<&'n Elem<'a>>>,
}

impl<'n, 'a> Places<'n, 'a> {
    /// None.
    pub(crate) fn none(alloc: Global) -> Places<'n, 'a>
        ensures { (id : List ℕ) → notes_at result id ≡ [] }
    {
        Places {
            alloc,
            notes: BTreeMap::new(alloc),
        }
    }

    /// Adds a note behind those with its id. `Err` means out of memory.
    pub(crate) fn add(&mut self, note: &'n Elem<'a>) -> Result<(), AllocError>
        ensures { OnOk result ((id : List ℕ) → notes_at self.new id ≡ notes_at self.old id ++ filter (has_id id) (element_of note.now ∷ [])) }
    {
        let id = value_in(note.tail(), b"id");
        let mut others = self.take(id);
        others.push(note)?;
        self.notes.insert(id, others)?;
        Ok(())
    }

    /// Takes the notes with this id out.
    pub(crate) fn take(&mut self, id: &[u8]) -> Vec<&'n Elem<'a>>
        ensures taken { all_borrowed result.items ≡ notes_at self.old id.now }
        ensures left { (other : List ℕ) → notes_at self.new other ≡ (if bytes_eq id.now other then [] else notes_at self.old other) }
    {
        match self.notes.remove(id) {
            Some(notes) => notes,
            None => Vec::new(self.alloc),
        }
    }
}
