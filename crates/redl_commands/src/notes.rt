//! The notes of a document: the marks that are left in it, and what keeps it from being read again.

ghost use Rattle.std.specs.Prelude.{◌≡◌, ◌++◌, OnOk};
ghost use Rattle.redl_commands.specs.Notes.{noted_if, noting, noting_again};
ghost use Rattle.redl_lines.specs.Remarks.{remarks_view};
ghost use Rattle.redl_tree.specs.Model.View.{nodes_of};

use redl_again::Obstacles;
use redl_inputs::PACKAGE_LIMIT;
use redl_lines::{Note, Obstacle, Remarks};
use redl_tree::Node;
use redl_undecided::count_undecided;
use redl_xml::DEPTH_LIMIT;
use std::alloc::AllocError;

/// Adds a note of the marks among these nodes that are never decided, if there is one. `Err` means out of memory, and then there is
/// no new note.
pub fn note_marks(remarks: &mut Remarks, nodes: &[Node]) -> Result<(), AllocError>
    ensures { OnOk result (remarks_view remarks.new ≡ noting (nodes_of nodes.now) (remarks_view remarks.old)) }
{
    let number = count_undecided(nodes);
    if number == 0 {
        return Ok(());
    }
    remarks.notes.push(Note::Undecided(number))?;
    Ok(())
}

/// Adds a note of each obstacle to that the text of these nodes is read again as a package. `Err` means out of memory, and some notes may
/// be there.
pub fn note_again(remarks: &mut Remarks, nodes: &[Node]) -> Result<(), AllocError>
    ensures { OnOk result (remarks_view remarks.new ≡ noting_again (nodes_of nodes.now) (remarks_view remarks.old)) }
{
    let found = Obstacles::of(nodes, DEPTH_LIMIT, PACKAGE_LIMIT as u64);
    note_if(remarks, found.too_deep, Obstacle::Depth)?;
    note_if(remarks, found.too_long, Obstacle::Bytes)?;
    note_if(remarks, found.meets_badly, Obstacle::Meeting)?;
    Ok(())
}

// Adds a note of this obstacle, if it is there.
fn note_if(remarks: &mut Remarks, is_there: bool, why: Obstacle) -> Result<(), AllocError>
    ensures { OnOk result (remarks_view remarks.new
        ≡ record (remarks_view remarks.old) { notes = (remarks_view remarks.old).notes ++ noted_if is_there why }) }
{
    if is_there {
        remarks.notes.push(Note::NotAgain(why))?;
    }
    Ok(())
}
