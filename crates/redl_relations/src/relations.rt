//! The relationships of a part, and the parts to which they lead.

ghost use Rattle.std.specs.Prelude.{◌≡◌, Some, IfOk, option_and_then};
ghost use Rattle.std.specs.Option.{option_map};
ghost use Rattle.redl_reading.specs.Steps.{Gives};
ghost use Rattle.redl_opc.specs.Elements.{element_of};
ghost use Rattle.redl_relations.specs.Relations.{first_with, part_named, relations_in, relations_of, name_at, part_at, part_by, part_by_id, part_by_type};
ghost use Rattle.redl_relations.specs.Inside.Sought.{is_sought};

use crate::names::{relations_name, target_name};
use crate::parts::{part_named, xml_data};
use crate::sought::{Sought, first};
use redl_opc::Package;
use redl_stamp::attribute;
use redl_tree::Elem;
use std::alloc::{AllocError, Global};

/// The part to which the first relationship of a part leads whose type ends so, as `/styles`. `Err` means out of memory.
///
/// `None` exactly if no part has this number, it has no such relationship in the package, or no part has the name to which that
/// leads. It takes memory for names alone.
pub fn part_by_type(
    alloc: Global,
    pkg: &Package,
    part: u32,
    ending: &[u8],
) -> Result<Option<u32>, AllocError>
    ensures { IfOk result (λ found. found ≡ part_by_type pkg.now part ending.now) }
{
    match pkg.part_name(part) {
        Some(source) => part_by(alloc, pkg, source, Sought::OfType(ending)),
        None => Ok(None),
    }
}

/// The part to which the relationship of a part with this id leads. `Err` means out of memory.
///
/// The id is compared as it is written. It takes memory for names alone.
pub fn part_by_id(
    alloc: Global,
    pkg: &Package,
    part: u32,
    id: &[u8],
) -> Result<Option<u32>, AllocError>
    ensures { IfOk result (λ found. found ≡ part_by_id pkg.now part id.now) }
{
    match pkg.part_name(part) {
        Some(source) => part_by(alloc, pkg, source, Sought::WithId(id)),
        None => Ok(None),
    }
}

// The part to which the first relationship leads that is sought, of those of the part with the name `source`.
fn part_by(
    alloc: Global,
    pkg: &Package,
    source: &[u8],
    sought: Sought<'_>,
) -> Result<Option<u32>, AllocError>
    ensures { IfOk result (λ found. found ≡ part_by (is_sought sought.entry) pkg.now (Some source.now)) }
{
    match relation(relations_of(alloc, pkg, source)?, sought) {
        Some(relation) => part_at(alloc, pkg, source, relation),
        None => Ok(None),
    }
}

// The first relationship that is sought of those that an element holds, if there is one.
fn relation<'n, 'a>(root: Option<&'n Elem<'a>>, sought: Sought<'_>) -> Option<&'n Elem<'a>>
    ensures { Gives (λ elem. element_of elem.now) result (option_and_then (λ root. first_with (is_sought sought.entry) root.kids) (option_map (λ elem. element_of elem.now) root.entry)) }
{
    first(root?.kids(), sought)
}

/// The element that holds the relationships of the part with this name. `Err` means out of memory.
pub fn relations_of<'n, 'a>(
    alloc: Global,
    pkg: &'n Package<'a>,
    name: &[u8],
) -> Result<Option<&'n Elem<'a>>, AllocError>
    ensures { IfOk result (λ root. Gives (λ elem. element_of elem.now) root (relations_of pkg.now name.now)) }
{
    let own = relations_name(alloc, name)?;
    Ok(relations_named(pkg, &own))
}

// What the first part with this name holds, if that is relationships.
fn relations_named<'n, 'a>(pkg: &'n Package<'a>, name: &[u8]) -> Option<&'n Elem<'a>>
    ensures { Gives (λ elem. element_of elem.now) result (option_and_then (relations_in pkg.now) (part_named pkg.now name.now)) }
{
    let part = part_named(pkg, name)?;
    let data = xml_data(pkg, part)?;
    first(data.kids(), Sought::Relations)
}

// The part to which a relationship of the part with the name `source` leads. `Err` means out of memory.
fn part_at(
    alloc: Global,
    pkg: &Package,
    source: &[u8],
    relation: &Elem,
) -> Result<Option<u32>, AllocError>
    ensures { IfOk result (λ found. found ≡ part_at pkg.now source.now (Some (element_of relation.now))) }
{
    let name = name_at(alloc, source, relation)?;
    Ok(part_named(pkg, &name))
}

/// The name to which it leads. `Err` means out of memory.
pub(crate) fn name_at(alloc: Global, source: &[u8], relation: &Elem) -> Result<Vec<u8>, AllocError>
    ensures { IfOk result (λ name. name.items ≡ name_at source.now (element_of relation.now)) }
{
    match attribute(alloc, relation.tail(), b"Target")? {
        Some(target) => target_name(alloc, source, target.as_bytes()),
        None => target_name(alloc, source, b""),
    }
}
