//! `settle accept P` and `settle reject P`.

ghost use Rattle.std.specs.Prelude.{◌≡◌, IfOk};
ghost use Rattle.redl_commands.specs.Settle.{passed, same_says, settled, settled_under, settling};
ghost use Rattle.redl_inputs.specs.Reading.{Reads};
ghost use Rattle.redl_commands.specs.Views.{writing_view};
ghost use Rattle.redl_inputs.specs.Views.{result_view};
ghost use Rattle.redl_tree.specs.Model.View.{nodes_of};

use redl_commands::Writing;
use redl_index::Surveyed;
use redl_inputs::{pass_nodes, read_package};
use redl_lines::{Failure, Remarks};
use redl_tree::{Node, Say};
use std::alloc::{AllocError, Global};

/// The package with this text, where each revision is accepted, or else each is rejected.
pub fn settle_package<'a, 'b>(
    alloc: Global,
    accept: bool,
    bytes: &'b [u8],
) -> Result<Writing<'b>, Failure<'a>>
    ensures { Reads (result_view writing_view result) (λ reader. settled reader accept bytes.now) }
{
    let package = read_package(alloc, bytes)?;
    Ok(settle_under(alloc, say_of(accept), package)?)
}

fn say_of(accept: bool) -> Say
    ensures { result ≡ settling accept }
{
    if accept { Say::Accept } else { Say::Reject }
}

// The package where each revision has this say, and a note of the marks that are left in it.
fn settle_under(alloc: Global, say: Say, pkg: Surveyed) -> Result<Writing, AllocError>
    ensures { IfOk result (λ writing. writing_view writing ≡ settled_under say pkg.entry) }
{
    let nodes = pass_under(alloc, say, pkg)?;
    Writing::package(nodes, Remarks::none(alloc))
}

fn pass_under(alloc: Global, say: Say, pkg: Surveyed) -> Result<Vec<Node>, AllocError>
    ensures { IfOk result (λ nodes. nodes_of nodes.items ≡ passed (same_says say pkg.entry) pkg.entry) }
{
    let counted = pkg.into_counted();
    let says = vec![in alloc; say; counted.count as usize]?;
    pass_nodes(alloc, counted.pkg, &says)
}
