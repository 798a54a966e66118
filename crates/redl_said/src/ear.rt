//! What hears the text of nodes.

ghost use Rattle.std.specs.Prelude.{◌≡◌, ◌++◌, [], List, ℕ, IsTrue, OnOk};

use std::alloc::AllocError;

/// Hears a text piece by piece.
pub trait Ear {
    // What it is after these bytes.
    ghost heard: { Self → List ℕ → Self };

    // No bytes leave it as it is, and bytes in two pieces change it as they do in one.
    ghost heard_nothing: { (ear : Self) → heard ear [] ≡ ear };

    ghost heard_more: { (ear : Self) (a b : List ℕ) → heard (heard ear a) b ≡ heard ear (a ++ b) };

    /// Hears more bytes. `Err` means out of memory.
    fn hear(&mut self, bytes: &[u8]) -> Result<(), AllocError>
        ensures { OnOk result (self.new ≡ heard self.old bytes.now) };

    /// Whether nothing that comes changes it any more.
    fn is_full(&self) -> bool
        ensures { IsTrue result → (bytes : List ℕ) → heard self.now bytes ≡ self.now };
}
