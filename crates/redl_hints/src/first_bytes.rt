//! A sink that remembers the first bytes that it was given.

ghost use Rattle.std.specs.Prelude.{◌≡◌};

use redl_io::{Failed, Sink};
use std::alloc::Global;

// How many bytes are remembered: enough for each line of a call but those of many refused entries.
const MOST: usize = 4096;

/// Passes all bytes on to another sink, and remembers the first 4,096 of them.
#[derive(Drop)]
pub struct FirstBytes<K> {
    sink: K,
    bytes: Vec<u8>,
}

impl<K: Sink> FirstBytes<K> {
    /// A sink before this one, which remembers nothing yet. It takes no memory.
    pub fn new(alloc: Global, sink: K) -> FirstBytes<K> {
        FirstBytes {
            sink,
            bytes: Vec::new(alloc),
        }
    }

    /// The first bytes that it was given.
    pub fn bytes(&self) -> &[u8] {
        &self.bytes
    }
}

impl<K: Sink> Sink for FirstBytes<K> {
    ghost told = { λ told. K.told told.sink };

    ghost faults = { λ told. K.faults told.sink };

    ghost settled = { λ told. K.settled told.sink };

    ghost lenders = { λ told. K.lenders told.sink };

    ghost settled_within = { λ told. K.settled_within told.sink };

    fn put(&mut self, bytes: &[u8]) -> Result<(), Failed> {
        let room = MOST.saturating_sub(self.bytes.len()).min(bytes.len());
        // What is remembered serves hints alone, so it may be less where memory runs out.
        let _ = self.bytes.extend_from_slice(&bytes[..room]);
        self.sink.put(bytes)
    }
}
