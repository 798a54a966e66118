//! The places of keys, of which the first counts where several are the same.

ghost use Rattle.std.specs.Prelude.{◌≡◌, ℕ, List, Some, None, bytes_eq, IfOk, OnOk, if◌then◌else◌};
ghost use Rattle.redl_reading.specs.Steps.{or_else};
ghost use Rattle.redl_comments.specs.Threads.{place_from, place_of};
ghost use Rattle.redl_comments.specs.Firsts.{place_at};

use redl_io::Text;
use std::alloc::{AllocError, Global};
use std::collections::BTreeMap;

/// The place of each key, from 0.
#[derive(Drop)]
pub struct Firsts<'k> {
    pub(crate) places: BTreeMap<&'k [u8], usize>,
}

impl<'k> Firsts<'k> {
    /// The places of these keys. `Err` means out of memory, here and below.
    pub fn of(alloc: Global, keys: &'k [Text]) -> Result<Firsts<'k>, AllocError>
        ensures { IfOk result (λ firsts. (key : List ℕ) → place_at firsts key ≡ place_from 0 keys.now key) }
    {
        let mut firsts = Firsts {
            places: BTreeMap::new(alloc),
        };
        for place in 0..keys.len() {
            firsts.add(keys[place].as_bytes(), place)?;
        }
        Ok(firsts)
    }

    // Gives a key this place, if it has none.
    fn add(&mut self, key: &'k [u8], place: usize) -> Result<(), AllocError>
        ensures { OnOk result ((other : List ℕ) → place_at self.new other ≡ or_else (place_at self.old other) (if bytes_eq key.now other then Some place else None)) }
    {
        if self.places.contains_key(key) {
            return Ok(());
        }
        self.places.insert(key, place)?;
        Ok(())
    }

    /// The place of the first key that is this one. The empty text is none.
    pub fn place(&self, key: &[u8]) -> Option<usize>
        ensures { (keys : List (List ℕ)) → ((other : List ℕ) → place_at self.now other ≡ place_from 0 keys other) → result ≡ place_of keys key.now }
    {
        if key.is_empty() {
            return None;
        }
        self.places.get(key).copied()
    }
}
