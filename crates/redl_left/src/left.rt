//! What is left in a package.

ghost use Rattle.std.specs.Prelude.{◌≡◌, IfOk};
ghost use Rattle.redl_tree.specs.Model.View.{nodes_of};
ghost use Rattle.redl_left.specs.Alike.{NameAlike};
ghost use Rattle.redl_left.specs.Lines.{left_lines, naming_tables, tables_of_nodes};
ghost use Rattle.redl_left.specs.Search.{table_of};
ghost use Rattle.redl_left.specs.Seen.{tables_of};

use crate::element::Below;
use crate::gather::gather_nodes;
use crate::line::Line;
use crate::named::Named;
use crate::search::Search;
use crate::seen::Seen;
use crate::tags::Known;
use crate::walk::look_nodes;
use redl_tree::Node;
use std::alloc::{AllocError, Global};

/// The lines of a package with these nodes, in which the members of revisions have their kinds. `Err` means out of memory.
pub fn lines(alloc: Global, nodes: &[Node]) -> Result<Vec<Line>, AllocError>
    ensures { IfOk result (λ lines. lines.items ≡ left_lines (nodes_of nodes.now)) }
{
    let naming = see_naming(alloc, nodes)?;
    let named = Named::of(alloc, &naming.tables)?;
    let search = Search::asking(alloc, named)?;
    let seen = see(alloc, &search, nodes)?;
    seen.into_lines()
}

// Lines in which all that names comments, notes and authors is told. `Err` means out of memory.
fn see_naming(alloc: Global, nodes: &[Node]) -> Result<Seen, AllocError>
    ensures { IfOk result (λ seen. NameAlike (tables_of seen) (naming_tables (nodes_of nodes.now))) }
{
    let mut seen = Seen::none(alloc)?;
    let mut known = Known::none(alloc)?;
    gather_nodes(&mut known, b"", b"", nodes, &mut seen)?;
    Ok(seen)
}

// What all elements are found to be. `Err` means out of memory.
fn see(alloc: Global, search: &Search<'_>, nodes: &[Node]) -> Result<Seen, AllocError>
    ensures { IfOk result (λ seen. tables_of seen ≡ tables_of_nodes (table_of search.now) (nodes_of nodes.now)) }
{
    let mut seen = Seen::none(alloc)?;
    let below = Below {
        search: &*search,
        part: b"",
    };
    let mut known = Known::none(alloc)?;
    look_nodes(&mut known, below, b"", nodes, &mut seen)?;
    Ok(seen)
}
