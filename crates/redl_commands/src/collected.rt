//! A sink that keeps all bytes.

ghost use Rattle.std.specs.Prelude.{◌≡◌, [], IfOk, Some, length};

use redl_io::{Failed, Sink};
use std::alloc::{AllocError, Global};

/// The bytes that were put. A put fails only where memory runs out, and then it takes none.
#[derive(Drop)]
pub struct Collected {
    /// The bytes.
    pub bytes: Vec<u8>,
    // How many puts have failed.
    faults: u64,
}

impl Collected {
    /// No bytes.
    pub fn new(alloc: Global) -> Collected
        ensures { result.bytes.items ≡ [] }
    {
        Collected {
            bytes: Vec::new(alloc),
            faults: 0,
        }
    }

    /// No bytes, and room for so many. `Err` means out of memory.
    pub fn with_room(alloc: Global, room: usize) -> Result<Collected, AllocError>
        ensures { IfOk result (λ sink. sink.bytes.items ≡ []) }
    {
        Ok(Collected {
            bytes: Vec::with_capacity(alloc, room)?,
            faults: 0,
        })
    }
}

impl Sink for Collected {
    ghost told = { λ sink. Some sink.bytes.items };

    ghost faults = { λ sink. sink.faults };

    ghost settled = { λ sink. length sink.bytes.items };

    ghost lenders = { λ _. [] };

    ghost use Rattle.std.proofs.Common.{rules};

    ghost settled_within = { λ sink. Prim.search rules };

    fn put(&mut self, bytes: &[u8]) -> Result<(), Failed> {
        match self.bytes.extend_from_slice(bytes) {
            Ok(()) => Ok(()),
            Err(_) => {
                self.faults = self.faults.saturating_add(1);
                Err(Failed { taken: 0 })
            }
        }
    }
}
