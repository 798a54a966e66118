//! An element that is not closed yet.

ghost use Rattle.std.specs.Prelude.{◌≡◌};
ghost use Rattle.redl_tree.specs.declared.kinds.Kind.TheVariants.{Plain};

use redl_tree::Tag;

/// An open element. It is in no revision.
#[derive(Drop)]
pub(crate) struct OpenElement<'a> {
    /// Its start tag.
    pub(crate) start: Tag<'a>,
    /// How many declarations that has.
    pub(crate) declared: usize,
    ghost kind: { start.kind ≡ Plain },
    ghost rev: { start.rev ≡ 0 },
}
