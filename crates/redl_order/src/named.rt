//! The notes that references name.

ghost use Rattle.std.specs.Prelude.{◌≡◌, ◌++◌, OnOk};
ghost use Rattle.redl_order.specs.Order.{ids, notes, own_id, with_ids};
ghost use Rattle.redl_order.specs.Inside.Places.{Moves};
ghost use Rattle.redl_order.specs.Borrowed.{all_borrowed};

use crate::notes::notes;
use crate::places::Places;
use crate::reference::{Named, Reference};
use redl_opc::Package;
use redl_tree::Elem;
use std::alloc::{AllocError, Global};

/// Adds the notes of this kind that these references name, in the order of the references. `Err` means out of memory.
pub(crate) fn push_named<'n, 'a>(
    alloc: Global,
    pkg: &'n Package<'a>,
    note: Named,
    references: &[Reference],
    named: &mut Vec<&'n Elem<'a>>,
) -> Result<(), AllocError>
    ensures { OnOk result (all_borrowed named.new.items ≡ all_borrowed named.old.items ++ with_ids (ids note references.now) (notes note pkg.now)) }
{
    let mut found = notes(alloc, pkg, note)?;
    for reference in references {
        push_one(note, reference, &mut found, named)?;
    }
    Ok(())
}

// Adds the notes that this reference names, if it is of this kind, and takes them out.
fn push_one<'n, 'a>(
    note: Named,
    reference: &Reference,
    found: &mut Places<'n, 'a>,
    named: &mut Vec<&'n Elem<'a>>,
) -> Result<(), AllocError>
    ensures { OnOk result (Moves (own_id note reference.now) found.old found.new (all_borrowed named.old.items) (all_borrowed named.new.items)) }
{
    if note.is(reference.named) {
        named.append(&mut found.take(reference.id.as_bytes()))?;
    }
    Ok(())
}
