//! Attributes as most programs write them, which need not be read letter by letter.

ghost use Rattle.std.specs.Prelude.{◌≡◌, ◌∷◌, ℕ, List, false, Some, codes, IfSome};
ghost use Rattle.redl_grammar.specs.Names.{Name};
ghost use Rattle.redl_markup.specs.Attributes.{attributes_of};
ghost use Rattle.redl_reading.specs.Lists.{begins};
ghost use Rattle.redl_stamp.specs.Attribute.{written_value};
ghost use Rattle.redl_left.specs.Finds.{has_front_name};
ghost use Rattle.redl_left.specs.Usual.{IsFront};

use crate::quotes::until_end;
use redl_reading::skip;

/// The value of the first attribute of a tail that begins with this text, and the rest of the tail.
#[inline(always)]
pub(crate) fn behind_front<'t>(tail: &'t [u8], front: &[u8]) -> Option<(&'t [u8], &'t [u8])>
    ensures { (name : Name) → IsFront name front.now → IfSome result (λ x. attributes_of tail.now ≡ (name, x.0.now) ∷ attributes_of x.1.now) }
{
    let bytes = skip(tail, front)?;
    let (value, ahead) = until_end(bytes);
    let rest = skip(ahead, b"\"")?;
    Some((value, rest))
}

/// The author of a tag, as it is written, where the tail begins with an id and an author.
pub(crate) fn usual_author(tail: &[u8]) -> Option<&[u8]>
    ensures { IfSome result (λ author. written_value tail.now (codes "author") ≡ Some author.now) }
{
    let (_, rest) = behind_front(tail, b" w:id=\"")?;
    let (author, _) = behind_front(rest, b" w:author=\"")?;
    Some(author)
}

/// The rest of a tail that begins with the two ids that Word gives a paragraph.
pub(crate) fn behind_ids(tail: &[u8]) -> Option<&[u8]>
    ensures { (front : List ℕ) → begins front (codes "paraId") ≡ false → begins front (codes "textId") ≡ false
        → IfSome result (λ rest. has_front_name rest.now front ≡ has_front_name tail.now front) }
{
    let (_, rest) = behind_front(tail, b" w14:paraId=\"")?;
    let (_, rest) = behind_front(rest, b" w14:textId=\"")?;
    Some(rest)
}
