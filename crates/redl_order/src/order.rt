//! The stories of a package in their order.

ghost use Rattle.std.specs.Prelude.{◌≡◌, ◌∷◌, ◌++◌, [], filter, IfOk, OnOk, codes};
ghost use Rattle.std.specs.List.{flat_map};
ghost use Rattle.redl_opc.specs.Elements.{element_of};
ghost use Rattle.redl_opc.specs.Stories.{stories_of_part};
ghost use Rattle.redl_order.specs.References.{references};
ghost use Rattle.redl_order.specs.Order.{ordered, document_references, has_name};
ghost use Rattle.redl_order.specs.Borrowed.{all_borrowed};

use crate::find::{Seen, find_nodes};
use crate::named::push_named;
use crate::once::{document_leads, push_named_stories};
use crate::reference::{Named, Reference};
use crate::stories::push_stories;
use redl_opc::Package;
use redl_tree::{Elem, Word, is_word};
use std::alloc::{AllocError, Global};

/// The roots of the package's stories and its notes, in their order. `Err` means out of memory.
///
/// It takes memory for the references and the notes.
pub fn ordered<'n, 'a>(alloc: Global, pkg: &'n Package<'a>) -> Result<Vec<&'n Elem<'a>>, AllocError>
    ensures { IfOk result (λ roots. all_borrowed roots.items ≡ ordered pkg.now) }
{
    let references = document_references(alloc, pkg)?;
    let leads = document_leads(alloc, pkg)?;
    let mut roots = Vec::new(alloc);
    push_stories(pkg, Word::Document, &mut roots)?;
    push_named_stories(alloc, pkg, Named::Header, &references, &leads, &mut roots)?;
    push_named_stories(alloc, pkg, Named::Footer, &references, &leads, &mut roots)?;
    push_named(alloc, pkg, Named::Footnote, &references, &mut roots)?;
    push_named(alloc, pkg, Named::Endnote, &references, &mut roots)?;
    Ok(roots)
}

/// The references of the document to headers, footers and notes, in their order. `Err` means out of memory.
pub fn document_references(alloc: Global, pkg: &Package) -> Result<Vec<Reference>, AllocError>
    ensures { IfOk result (λ found. found.items ≡ document_references pkg.now) }
{
    let mut seen = Seen {
        alloc,
        references: Vec::new(alloc),
    };
    for part in 0..pkg.parts() {
        find_in_part(pkg, part, &mut seen)?;
    }
    Ok(seen.references)
}

// Adds the references of one part, if it is a document. `Err` means out of memory.
fn find_in_part(pkg: &Package, part: u32, seen: &mut Seen) -> Result<(), AllocError>
    ensures { OnOk result (seen.new.references.items ≡ seen.old.references.items ++ flat_map (λ root. references root.kids) (filter (has_name (codes "document")) (stories_of_part pkg.now part))) }
{
    match pkg.story(part) {
        Some(root) => find_in_root(root, seen),
        None => Ok(()),
    }
}

fn find_in_root(root: &Elem, seen: &mut Seen) -> Result<(), AllocError>
    ensures { OnOk result (seen.new.references.items ≡ seen.old.references.items ++ flat_map (λ root. references root.kids) (filter (has_name (codes "document")) (element_of root.now ∷ []))) }
{
    if is_word(root, Word::Document) {
        return find_nodes(root.kids(), seen);
    }
    Ok(())
}
