//! Start tags as the tree keeps them.

ghost use Rattle.std.specs.Prelude.{◌≡◌, IfOk};
ghost use Rattle.redl_tree.specs.Model.Folds.{plain_start};

use redl_markup::StartTag;
use redl_tree::{Space, Tag};
use std::alloc::AllocError;

/// The start tag of an element in this space and in no revision.
///
/// `Err` means out of memory: the tree has no room for a name of 4 GB or more.
#[tactic(auto, using(redl_tree::proofs::Reading::Starts::is_cut))]
pub(crate) fn kept<'a>(tag: &StartTag<'a>, space: Space) -> Result<Tag<'a>, AllocError>
    ensures { IfOk result (λ start. start ≡ plain_start tag.now.name space tag.now.tail) }
{
    let text = tag.text();
    let Ok(prefix) = u32::try_from(tag.name().prefix.len()) else {
        return Err(AllocError);
    };
    let Ok(name) = u32::try_from(text.len() - tag.tail().len()) else {
        return Err(AllocError);
    };
    Ok(Tag::new(text, prefix, name, space))
}
