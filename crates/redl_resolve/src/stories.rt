//! The stories among the nodes of a package.

ghost use Rattle.std.specs.Prelude.{◌≡◌, ◌<◌, ◌≤◌, ◌+◌, IfOk};
ghost use Rattle.redl_resolve.specs.Keeps.{KeepsText, KeepsRules};
ghost use Rattle.redl_tree.specs.Model.Count.{count};
ghost use Rattle.redl_tree.specs.Decisions.Packages.{pass_package};
ghost use Rattle.redl_tree.specs.Model.View.{nodes_of};

use crate::steps::Steps;
use crate::story::pass_story;
use redl_output::copy_nodes;
use redl_tree::{Elem, Node, Say, StoryChange, change_stories};
use std::alloc::{AllocError, Global};
use std::marker::Brand;
use std::sync::ledger::{Blank, Ledger};

/// The nodes of a package, resolved under a say for each revision. `says[v - 1]` belongs to revision v, and a revision
/// without a say is left (ECMA-376 Part 1, 17.13.5).
///
/// The nodes are copied first; a caller that needs them no more takes `into_passed`, which copies only former properties.
/// `Err` means out of memory.
pub fn pass<'a>(
    alloc: Global,
    nodes: &[Node<'a>],
    says: &[Say],
) -> Result<Vec<Node<'a>>, AllocError>
    ensures passed { IfOk result (λ passed. nodes_of passed.items ≡ pass_package says.now (nodes_of nodes.now)) }

    // The text of the stories is what survives, and a sound package stays sound.
    ensures survival { IfOk result (λ passed. KeepsText says.now (nodes_of nodes.now) (nodes_of passed.items)) }
    ensures soundness { IfOk result (λ passed. KeepsRules (nodes_of nodes.now) (nodes_of passed.items)) }
{
    let copies = copy_nodes(alloc, nodes)?;
    into_passed(alloc, copies, says)
}

/// The same as `pass`, for nodes that are given away. What is in no story keeps its place, and so does a list in which all
/// stay. What else stays is moved, so the original goes while the result is made.
///
/// `Err` means out of memory.
pub fn into_passed<'a>(
    alloc: Global,
    nodes: Vec<Node<'a>>,
    says: &[Say],
) -> Result<Vec<Node<'a>>, AllocError>
    ensures passed { IfOk result (λ passed. nodes_of passed.items ≡ pass_package says.now (nodes_of nodes.entry.items)) }

    // The text of the stories is what survives, and a sound package stays sound.
    ensures survival { IfOk result (λ passed. KeepsText says.now (nodes_of nodes.entry.items) (nodes_of passed.items)) }
    ensures soundness { IfOk result (λ passed. KeepsRules (nodes_of nodes.entry.items) (nodes_of passed.items)) }
{
    into_passed_by::<Brand>(alloc, nodes, says, Blank::new(1))
}

/// The same as `pass`, with its steps counted: one for each node that is looked at, and one for an element that goes, with
/// all that it holds.
pub fn pass_counted<'a, L: Ledger>(
    alloc: Global,
    nodes: &[Node<'a>],
    says: &[Say],
    steps: &mut Steps<L>,
) -> Result<Vec<Node<'a>>, AllocError>
    ensures passed { IfOk result (λ passed. nodes_of passed.items ≡ pass_package says.now (nodes_of nodes.now)) }

    // The text of the stories is what survives, and a sound package stays sound.
    ensures survival { IfOk result (λ passed. KeepsText says.now (nodes_of nodes.now) (nodes_of passed.items)) }
    ensures soundness { IfOk result (λ passed. KeepsRules (nodes_of nodes.now) (nodes_of passed.items)) }

    // At most one step for each node that is given, also with an error, and at least one for each node of the result.
    ensures entered { steps.new ≤ steps.old + count (nodes_of nodes.now) }
    ensures made { IfOk result (λ passed. steps.old + count (nodes_of passed.items) ≤ steps.new) }
{
    let copies = copy_nodes(alloc, nodes)?;
    into_passed_counted(alloc, copies, says, steps)
}

/// The same as `into_passed`, with its steps counted as `pass_counted` counts them.
pub fn into_passed_counted<'a, L: Ledger>(
    alloc: Global,
    nodes: Vec<Node<'a>>,
    says: &[Say],
    steps: &mut Steps<L>,
) -> Result<Vec<Node<'a>>, AllocError>
    ensures passed { IfOk result (λ passed. nodes_of passed.items ≡ pass_package says.now (nodes_of nodes.entry.items)) }

    // The text of the stories is what survives, and a sound package stays sound.
    ensures survival { IfOk result (λ passed. KeepsText says.now (nodes_of nodes.entry.items) (nodes_of passed.items)) }
    ensures soundness { IfOk result (λ passed. KeepsRules (nodes_of nodes.entry.items) (nodes_of passed.items)) }

    // At most one step for each node that is given, also with an error, and at least one for each node of the result.
    ensures entered { steps.new ≤ steps.old + count (nodes_of nodes.entry.items) }
    ensures made { IfOk result (λ passed. steps.old + count (nodes_of passed.items) ≤ steps.new) }
{
    let mut nodes = nodes;
    change_stories(alloc, &mut nodes, &Passing { alloc, says }, steps)?;
    Ok(nodes)
}

// The same as `into_passed`, with a counter by this blank, which nobody reads. It is a function of its own, since the name of a
// counter is picked at a call.
fn into_passed_by<'a, L: Ledger>(
    alloc: Global,
    nodes: Vec<Node<'a>>,
    says: &[Say],
    blank: Blank,
) -> Result<Vec<Node<'a>>, AllocError>
    requires name { blank.name ≡ L.name }
    requires parts { blank.parts ≡ L.parts }
    requires some { 0 < L.parts }
    ensures passed { IfOk result (λ passed. nodes_of passed.items ≡ pass_package says.now (nodes_of nodes.entry.items)) }
    ensures survival { IfOk result (λ passed. KeepsText says.now (nodes_of nodes.entry.items) (nodes_of passed.items)) }
    ensures soundness { IfOk result (λ passed. KeepsRules (nodes_of nodes.entry.items) (nodes_of passed.items)) }
{
    into_passed_counted(alloc, nodes, says, &mut Steps::<L>::new(blank))
}

// The pass of each story under the same says. A step is counted for each node.
#[derive(Clone, Copy)]
struct Passing<'s> {
    alloc: Global,
    says: &'s [Say],
}

impl<L: Ledger> StoryChange<Steps<L>> for Passing<'_> {
    type Error = AllocError;

    ghost use Rattle.std.specs.Prelude.{List, true};
    ghost use Rattle.redl_tree.specs.declared.kinds.Say.{Say};
    ghost use Rattle.redl_tree.specs.Decisions.Packages.{pass_rule};

    ghost Given = { List Say };

    ghost given = { λ passing _. passing.says.now };

    ghost rule = { pass_rule };

    ghost Takes = { λ _ _ _. Unit {0} };

    ghost is_counted = { true };

    ghost steps = { λ steps. steps };

    fn meet(&self, steps: &mut Steps<L>, nodes: u32) {
        steps.tick_by(nodes);
    }

    fn change(&self, root: &mut Elem, steps: &mut Steps<L>) -> Result<(), AllocError> {
        let kids = root.take_kids(self.alloc);
        let passed = pass_story(self.alloc, kids, root, self.says, steps)?;
        root.return_kids(passed);
        Ok(())
    }
}
