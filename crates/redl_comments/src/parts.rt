//! The parts of comments.

ghost use Rattle.std.specs.Prelude.{◌≡◌, IfOk};
ghost use Rattle.redl_reading.specs.Steps.{Gives};
ghost use Rattle.redl_opc.specs.Elements.{element_of};
ghost use Rattle.redl_comments.specs.Comments.{comments_story, part_with_type, states_data};

use redl_opc::Package;
use redl_relations::{document_part, part_by_type, xml_data};
use redl_tree::Elem;
use std::alloc::{AllocError, Global};

// The part to which the relationship of the document with such a type leads. `Err` means out of memory, here and below.
fn part_with_type(alloc: Global, pkg: &Package, ending: &[u8]) -> Result<Option<u32>, AllocError>
    ensures { IfOk result (λ part. part ≡ part_with_type pkg.now ending.now) }
{
    match document_part(pkg) {
        Some(document) => part_by_type(alloc, pkg, document, ending),
        None => Ok(None),
    }
}

/// The root of the comments part.
pub(crate) fn comments_story<'n, 'a>(
    alloc: Global,
    pkg: &'n Package<'a>,
) -> Result<Option<&'n Elem<'a>>, AllocError>
    ensures { IfOk result (λ found. Gives (λ elem. element_of elem.now) found (comments_story pkg.now)) }
{
    match part_with_type(alloc, pkg, b"/comments")? {
        Some(part) => Ok(pkg.story(part)),
        None => Ok(None),
    }
}

/// What holds the part of the states of comments.
pub(crate) fn states_data<'n, 'a>(
    alloc: Global,
    pkg: &'n Package<'a>,
) -> Result<Option<&'n Elem<'a>>, AllocError>
    ensures { IfOk result (λ found. Gives (λ elem. element_of elem.now) found (states_data pkg.now)) }
{
    match part_with_type(alloc, pkg, b"/commentsExtended")? {
        Some(part) => Ok(xml_data(pkg, part)),
        None => Ok(None),
    }
}
