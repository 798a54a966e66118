//! Items, and the pieces of text that formats make of them.

ghost use Rattle.std.specs.Prelude.{◌≡◌, ◌++◌, List, ℕ, IfOk};

use std::alloc::{AllocError, Global};

/// What formats are given one after another, as the rows of a listing or the lines of a report.
pub trait Item: Drop {
    // What each item keeps.
    ghost is_item: { Self → Type 0 };

    /// An equal item. `Err` means out of memory.
    fn copy(&self, alloc: Global) -> Result<Self, AllocError>
        ensures { IfOk result (λ copy. copy ≡ self.now) };
}

/// What a format makes of its items, one by one.
pub trait ItemText<I: Item> {
    // The name of the format.
    ghost title: { List ℕ };

    // The text of one item.
    ghost piece_of: { I → List ℕ };

    /// The name of the format. It takes no memory.
    fn title() -> &'static str
        ensures { result.now ≡ title };

    /// The bytes, and the text of an item after them. `Err` means out of memory.
    fn put(front: Vec<u8>, item: &I) -> Result<Vec<u8>, AllocError>
        requires { I.is_item item.now }
        ensures { IfOk result (λ whole. whole.items ≡ front.items ++ piece_of item.now) };
}
