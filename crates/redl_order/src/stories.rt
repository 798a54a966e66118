//! The stories of a package with the same root.

ghost use Rattle.std.specs.Prelude.{◌≡◌, ◌∷◌, ◌++◌, [], filter, OnOk};
ghost use Rattle.redl_tree.specs.Roles.Words.{name_of};
ghost use Rattle.redl_opc.specs.Elements.{element_of};
ghost use Rattle.redl_opc.specs.Stories.{stories_of_part};
ghost use Rattle.redl_order.specs.Order.{has_name, stories_named};
ghost use Rattle.redl_order.specs.Borrowed.{all_borrowed};

use redl_opc::Package;
use redl_tree::{Elem, Word, is_word};
use std::alloc::AllocError;

/// Adds the roots with this name of the package's stories, in the order of its parts. `Err` means out of memory.
pub(crate) fn push_stories<'n, 'a>(
    pkg: &'n Package<'a>,
    word: Word,
    roots: &mut Vec<&'n Elem<'a>>,
) -> Result<(), AllocError>
    ensures { OnOk result (all_borrowed roots.new.items ≡ all_borrowed roots.old.items ++ stories_named (name_of word) pkg.now) }
{
    for part in 0..pkg.parts() {
        push_story(pkg, part, word, roots)?;
    }
    Ok(())
}

/// The same of one part.
pub(crate) fn push_story<'n, 'a>(
    pkg: &'n Package<'a>,
    part: u32,
    word: Word,
    roots: &mut Vec<&'n Elem<'a>>,
) -> Result<(), AllocError>
    ensures { OnOk result (all_borrowed roots.new.items ≡ all_borrowed roots.old.items ++ filter (has_name (name_of word)) (stories_of_part pkg.now part)) }
{
    match pkg.story(part) {
        Some(root) => push_root(root, word, roots),
        None => Ok(()),
    }
}

fn push_root<'n, 'a>(
    root: &'n Elem<'a>,
    word: Word,
    roots: &mut Vec<&'n Elem<'a>>,
) -> Result<(), AllocError>
    ensures { OnOk result (all_borrowed roots.new.items ≡ all_borrowed roots.old.items ++ filter (has_name (name_of word)) (element_of root.now ∷ [])) }
{
    if is_word(root, word) {
        roots.push(root)?;
    }
    Ok(())
}
