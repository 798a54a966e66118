//! The package of a text, or why it is refused, and what a pass leaves of it.

ghost use Rattle.std.specs.Prelude.{◌≡◌, None, IfOk};
ghost use Rattle.redl_inputs.specs.Packages.{tree_in, shaped, sound, package_in};
ghost use Rattle.redl_inputs.specs.Reading.{Reads};
ghost use Rattle.redl_inputs.specs.Views.{result_view};
ghost use Rattle.redl_tree.specs.Model.Tree.{IsTree};
ghost use Rattle.redl_rules.specs.Attributes.{broken_rule};
ghost use Rattle.redl_tree.specs.Decisions.Packages.{pass_package};
ghost use Rattle.redl_tree.specs.Model.View.{nodes_of};
ghost use Rattle.redl_tree.specs.Revisions.Labels.{unlabelled};

use redl_index::Surveyed;
use redl_lines::Failure;
use redl_opc::Package;
use redl_resolve::into_passed;
use redl_rules::RuleError;
use redl_tree::{Node, Say};
use std::alloc::{AllocError, Global};

/// The package with this text. No element of it has a label yet.
pub fn read_package<'a, 'b>(alloc: Global, bytes: &'b [u8]) -> Result<Surveyed<'b>, Failure<'a>>
    ensures read { Reads (result_view (λ made. made) result) (λ reader. package_in reader bytes.now) }
    ensures sound { IfOk result (λ made. broken_rule made ≡ None) }
    ensures unlabelled { IfOk result (λ made. unlabelled made ≡ made) }
{
    let nodes = read_nodes(alloc, bytes)?;
    let shaped = shape(alloc, nodes)?;
    let package = Surveyed::of(alloc, shaped)?;
    check_rules(&package)?;
    Ok(package)
}

// The tree of this text.
fn read_nodes<'a, 'b>(alloc: Global, bytes: &'b [u8]) -> Result<Vec<Node<'b>>, Failure<'a>>
    ensures read { Reads (result_view (λ nodes. nodes_of nodes.items) result) (λ reader. tree_in (reader.tree bytes.now)) }
    ensures tree { IfOk result (λ nodes. IsTree (nodes_of nodes.items)) }
    ensures unlabelled { IfOk result (λ nodes. unlabelled (nodes_of nodes.items) ≡ nodes_of nodes.items) }
{
    Ok(redl_xml::read(alloc, bytes)?)
}

// The package that the nodes are.
fn shape<'a, 'b>(alloc: Global, nodes: Vec<Node<'b>>) -> Result<Package<'b>, Failure<'a>>
    requires { IsTree (nodes_of nodes.items) }
    ensures read { Reads (result_view (λ made. made) result) (λ _. shaped (nodes_of nodes.entry.items)) }
    ensures nodes { IfOk result (λ made. made ≡ nodes_of nodes.entry.items) }
{
    Ok(Package::make(alloc, nodes)?)
}

// Whether the package keeps the rules of structure.
fn check_rules<'a>(pkg: &Surveyed) -> Result<(), Failure<'a>>
    ensures read { Reads (result_view (λ _. pkg.now) result) (λ _. sound pkg.now) }
    ensures sound { IfOk result (λ _. broken_rule pkg.now ≡ None) }
{
    match pkg.broken_rule() {
        Some(rule) => Err(RuleError::Broken(rule).into()),
        None => Ok(()),
    }
}

/// What is left of a numbered package. Its own nodes go while it is made.
pub fn pass_nodes<'b>(
    alloc: Global,
    pkg: Package<'b>,
    says: &[Say],
) -> Result<Vec<Node<'b>>, AllocError>
    ensures { IfOk result (λ passed. nodes_of passed.items ≡ pass_package says.now pkg.entry) }
{
    into_passed(alloc, pkg.into_nodes(), says)
}
