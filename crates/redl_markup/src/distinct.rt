//! Whether no two names are written alike.

ghost use Rattle.std.specs.Prelude.{◌≡◌, IfOk, map, not};
ghost use Rattle.std.specs.List.{list_all};
ghost use Rattle.redl_grammar.specs.Names.{name_eq, are_distinct};
ghost use Rattle.redl_markup.specs.Views.{name_view};

use crate::name::Name;
use std::alloc::{AllocError, Global};
use std::collections::BTreeSet;

// Up to this many names are compared pairwise, without making a set.
const FEW: usize = 8;

// Whether two names are written alike. Names of one tag mostly differ in the local parts.
#[inline(always)]
fn are_alike(a: Name<'_>, b: Name<'_>) -> bool
    ensures { result ≡ name_eq (name_view a.entry) (name_view b.entry) }
{
    a.local == b.local && a.prefix == b.prefix
}

// Whether a name is written differently from all the others.
#[inline(always)]
fn is_unlike<'a>(name: Name<'a>, others: &[Name<'a>]) -> bool
    ensures { result ≡ list_all (λ m. not (name_eq (name_view name.entry) m)) (map name_view others.now) }
{
    let mut left = others.iter();
    while let Some(other) = left.next() {
        if are_alike(name, *other) {
            return false;
        }
    }
    true
}

#[tactic(auto, unfolding(redl_grammar::specs::Names::are_distinct))]
#[inline(always)]
fn few_unlike<'a>(names: &[Name<'a>]) -> bool
    ensures { result ≡ are_distinct (map name_view names.now) }
{
    let mut left = names.iter();
    while let Some(first) = left.next() {
        if !is_unlike(*first, left.as_slice()) {
            return false;
        }
    }
    true
}

#[cold]
fn many_unlike(alloc: Global, names: &[Name<'_>]) -> Result<bool, AllocError>
    ensures { IfOk result (λ b. b ≡ are_distinct (map name_view names.now)) }
{
    let set: BTreeSet<Name<'_>> = names.iter().copied().collect(alloc)?;
    Ok(set.len() == names.len())
}

#[inline(always)]
pub(crate) fn no_two_alike(alloc: Global, names: &[Name<'_>]) -> Result<bool, AllocError>
    ensures { IfOk result (λ b. b ≡ are_distinct (map name_view names.now)) }
{
    if names.len() <= FEW {
        return Ok(few_unlike(names));
    }
    many_unlike(alloc, names)
}
