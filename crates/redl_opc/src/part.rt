//! An entry in the list of parts.

ghost use Rattle.std.specs.Prelude.{◌≡◌};
ghost use Rattle.std.specs.Str.{IsUtf8};

use redl_io::Text;

/// A part of a package.
#[derive(Drop)]
pub(crate) struct Part {
    /// Its place among the kids of the root.
    pub(crate) place: usize,
    /// Its decoded name.
    pub(crate) name: Text,
    ghost utf8: { ∥ IsUtf8 name ∥₁ },
}

impl Part {
    pub(crate) fn name(&self) -> &[u8]
        ensures value { result.now ≡ self.now.name }
        ensures utf8 { IsUtf8 result.now }
    {
        self.name.as_bytes()
    }
}
