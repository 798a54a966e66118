//! Headers and footers in the order of their references.

ghost use Rattle.std.specs.Prelude.{◌≡◌, ◌++◌, ◌∷◌, ℕ, List, [], filter_map, option_to_list, IfOk, OnOk};
ghost use Rattle.std.specs.BTreeSet.{contains};
ghost use Rattle.std.specs.Ordering.{nat_cmp};
ghost use Rattle.redl_opc.specs.Shape.{parts_of};
ghost use Rattle.redl_relations.specs.Relations.{document_part};
ghost use Rattle.redl_relations.specs.Leads.{lead};
ghost use Rattle.redl_order.specs.Order.{document_references, ids, own_id, numbers_from, part_led_to, story_of_kind, named_stories};
ghost use Rattle.redl_order.specs.Inside.Once.{Pushes};
ghost use Rattle.redl_order.specs.Borrowed.{all_borrowed};

use crate::reference::{Named, Reference};
use crate::stories::push_story;
use redl_opc::Package;
use redl_relations::{Leads, document_part};
use redl_tree::Elem;
use std::alloc::{AllocError, Global};
use std::collections::BTreeSet;

/// Where the references of the first document lead. `Err` means out of memory.
pub(crate) fn document_leads<'n>(
    alloc: Global,
    pkg: &'n Package<'_>,
) -> Result<Leads<'n>, AllocError>
    ensures { IfOk result (λ leads. (id : List ℕ) → lead leads id ≡ part_led_to pkg.now (document_part pkg.now) id) }
{
    match document_part(pkg) {
        Some(document) => Leads::of(alloc, pkg, document),
        None => Ok(Leads::none(alloc)),
    }
}

/// Adds the roots of the stories of this kind: those that the document names, in the order of its references, and then the others.
/// `Err` means out of memory.
pub(crate) fn push_named_stories<'n, 'a>(
    alloc: Global,
    pkg: &'n Package<'a>,
    kind: Named,
    references: &[Reference],
    leads: &Leads<'_>,
    roots: &mut Vec<&'n Elem<'a>>,
) -> Result<(), AllocError>
    requires references { references.now ≡ document_references pkg.now }
    requires leads { (id : List ℕ) → lead leads.now id ≡ part_led_to pkg.now (document_part pkg.now) id }
    ensures { OnOk result (all_borrowed roots.new.items ≡ all_borrowed roots.old.items ++ named_stories kind pkg.now) }
{
    let mut seen = BTreeSet::new(alloc);
    push_led_to(pkg, kind, references, leads, &mut seen, roots)?;
    push_all(pkg, kind, &mut seen, roots)
}

// Adds those to which these references lead.
fn push_led_to<'n, 'a>(
    pkg: &'n Package<'a>,
    kind: Named,
    references: &[Reference],
    leads: &Leads<'_>,
    seen: &mut BTreeSet<u32>,
    roots: &mut Vec<&'n Elem<'a>>,
) -> Result<(), AllocError>
    ensures { OnOk result (Pushes (story_of_kind kind pkg.now) (contains nat_cmp seen.old) (all_borrowed roots.old.items)
        (contains nat_cmp seen.new) (all_borrowed roots.new.items) (filter_map (lead leads.now) (ids kind references.now))) }
{
    for reference in references {
        push_reference(pkg, kind, reference, leads, seen, roots)?;
    }
    Ok(())
}

// Adds the one to which a reference leads, if it is of this kind.
fn push_reference<'n, 'a>(
    pkg: &'n Package<'a>,
    kind: Named,
    reference: &Reference,
    leads: &Leads<'_>,
    seen: &mut BTreeSet<u32>,
    roots: &mut Vec<&'n Elem<'a>>,
) -> Result<(), AllocError>
    ensures { OnOk result (Pushes (story_of_kind kind pkg.now) (contains nat_cmp seen.old) (all_borrowed roots.old.items)
        (contains nat_cmp seen.new) (all_borrowed roots.new.items) (filter_map (lead leads.now) (own_id kind reference.now))) }
{
    if kind.is(reference.named) {
        return push_lead(pkg, kind, leads.part(reference.id.as_bytes()), seen, roots);
    }
    Ok(())
}

// Adds the one to which a reference leads, if it leads to one.
fn push_lead<'n, 'a>(
    pkg: &'n Package<'a>,
    kind: Named,
    lead: Option<u32>,
    seen: &mut BTreeSet<u32>,
    roots: &mut Vec<&'n Elem<'a>>,
) -> Result<(), AllocError>
    ensures { OnOk result (Pushes (story_of_kind kind pkg.now) (contains nat_cmp seen.old) (all_borrowed roots.old.items)
        (contains nat_cmp seen.new) (all_borrowed roots.new.items) (option_to_list lead)) }
{
    match lead {
        Some(part) => push_once(pkg, kind, part, seen, roots),
        None => Ok(()),
    }
}

// Adds those of all parts, in their order.
fn push_all<'n, 'a>(
    pkg: &'n Package<'a>,
    kind: Named,
    seen: &mut BTreeSet<u32>,
    roots: &mut Vec<&'n Elem<'a>>,
) -> Result<(), AllocError>
    ensures { OnOk result (Pushes (story_of_kind kind pkg.now) (contains nat_cmp seen.old) (all_borrowed roots.old.items)
        (contains nat_cmp seen.new) (all_borrowed roots.new.items) (numbers_from 0 (parts_of pkg.now))) }
{
    for part in 0..pkg.parts() {
        push_once(pkg, kind, part, seen, roots)?;
    }
    Ok(())
}

// Adds that of a part, unless the part was seen.
fn push_once<'n, 'a>(
    pkg: &'n Package<'a>,
    kind: Named,
    part: u32,
    seen: &mut BTreeSet<u32>,
    roots: &mut Vec<&'n Elem<'a>>,
) -> Result<(), AllocError>
    ensures { OnOk result (Pushes (story_of_kind kind pkg.now) (contains nat_cmp seen.old) (all_borrowed roots.old.items)
        (contains nat_cmp seen.new) (all_borrowed roots.new.items) (part ∷ [])) }
{
    if seen.insert(part)? {
        return push_story(pkg, part, kind.word(), roots);
    }
    Ok(())
}
