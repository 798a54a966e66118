//! The tables of a package.

ghost use Rattle.std.specs.Prelude.{◌≡◌, IfOk};
ghost use Rattle.redl_lists.specs.Parts.{held_by};
ghost use Rattle.redl_lists.specs.Tables.{kids_in};
ghost use Rattle.redl_clauses.specs.Clauses.{held, package_tables};

use redl_lists::Tables;
use redl_opc::Package;
use redl_relations::{document_part, part_by_type, xml_data};
use redl_tree::Elem;
use std::alloc::{AllocError, Global};

/// What the numbering part and the styles part of the document say. `Err` means out of memory.
pub fn package_tables(alloc: Global, pkg: &Package) -> Result<Tables, AllocError>
    ensures { IfOk result (λ tables. tables ≡ package_tables pkg.now) }
{
    let numbering = held(alloc, pkg, b"/numbering")?;
    let styles = held(alloc, pkg, b"/styles")?;
    Tables::read(alloc, numbering, styles)
}

// What holds the part to which the relationship of the document with such a type leads. `Err` means out of memory.
fn held<'n, 'a>(
    alloc: Global,
    pkg: &'n Package<'a>,
    ending: &[u8],
) -> Result<Option<&'n Elem<'a>>, AllocError>
    ensures { IfOk result (λ found. held_by found ≡ kids_in (held pkg.now ending.now)) }
{
    let Some(document) = document_part(pkg) else {
        return Ok(None);
    };
    match part_by_type(alloc, pkg, document, ending)? {
        Some(part) => Ok(xml_data(pkg, part)),
        None => Ok(None),
    }
}
