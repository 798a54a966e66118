//! What a call writes, put on the output.

ghost use Rattle.std.specs.Prelude.{◌≡◌, [], IfOk, OnOk, OnErr};
ghost use Rattle.std.specs.Io.KnownBytes.{append_known};
ghost use Rattle.redl_commands.specs.Check.{sound_text};
ghost use Rattle.redl_commands.specs.Endings.{Finishes};
ghost use Rattle.redl_commands.specs.Notes.{with_result_notes};
ghost use Rattle.redl_commands.specs.Views.{output_text, writing_view};
ghost use Rattle.redl_commands.specs.Writing.{only_bytes};
ghost use Rattle.redl_inputs.specs.Views.{result_view};
ghost use Rattle.redl_io.specs.Sink.{Puts, GrowsByFront, CountsPut};
ghost use Rattle.redl_lines.specs.Ends.{end_view};
ghost use Rattle.redl_lines.specs.Remarks.{remarks_view};
ghost use Rattle.redl_tree.specs.Model.Text.{text};
ghost use Rattle.redl_tree.specs.Model.View.{nodes_of};

use crate::notes::{note_again, note_marks};
use itoa::Buffer;
use redl_inputs::DocumentId;
use redl_io::{Failed, Sink, Staged, put_piece, put_pieces};
use redl_join::Book;
use redl_lines::{End, Failure, Remarks};
use redl_output::write_nodes;
use redl_sample::SampleSummary;
use redl_tree::Node;
use std::alloc::{AllocError, Global};
use std::mem;

/// What goes out.
#[derive(Drop)]
pub enum Output<'b> {
    /// The text of these nodes.
    Package(Vec<Node<'b>>),
    /// That a package is sound, and has so many revisions.
    Count(u32),
    /// The journal of this document with the book's entries.
    Journal { document: DocumentId, book: Book },
    /// This text of a listing.
    Listing(Vec<u8>),
    /// The summary of a sample.
    Summary(SampleSummary),
}

/// What a call writes, and what there is to remark.
#[derive(Drop)]
pub struct Writing<'b> {
    /// What goes out.
    pub output: Output<'b>,
    /// What there is to remark.
    pub remarks: Remarks,
}

impl<'b> Writing<'b> {
    /// Output alone, where there is nothing to remark.
    pub fn only(alloc: Global, output: Output<'b>) -> Writing<'b>
        ensures { writing_view result ≡ only_bytes (output_text output.entry) }
    {
        Writing {
            output,
            remarks: Remarks::none(alloc),
        }
    }

    /// The package with these nodes, a note of the marks in it that are never decided, and one of each obstacle to that it is read again.
    /// `Err` means out of memory.
    pub fn package(nodes: Vec<Node<'b>>, remarks: Remarks) -> Result<Writing<'b>, AllocError>
        ensures { IfOk result (λ writing. writing_view writing
            ≡ with_result_notes (nodes_of nodes.entry.items) (record { bytes = text (nodes_of nodes.entry.items); remarks = remarks_view remarks })) }
    {
        let mut remarks = remarks;
        note_marks(&mut remarks, &nodes)?;
        note_again(&mut remarks, &nodes)?;
        Ok(Writing {
            output: Output::Package(nodes),
            remarks,
        })
    }
}

/// Puts what was made on the output, or tells why nothing was.
pub fn put<'a, 'b, O: Sink>(made: Result<Writing<'b>, Failure<'a>>, out: &mut O) -> End<'a>
    ensures { Finishes O.told O.faults out.old out.new (result_view writing_view made.entry) (end_view result) }
{
    match made {
        Ok(Writing { output, remarks }) => {
            let written = write_output(&output, out);
            // a call ends here, and the system takes all memory back at once
            mem::forget(output);
            match written {
                Ok(()) => End::Written(remarks),
                Err(_) => End::Unwritten(remarks),
            }
        }
        Err(failure) => End::Failed(failure),
    }
}

// Writes what a call writes, through a stage. `Failed` comes only where `out` failed, which then has only a prefix of it.
fn write_output<O: Sink>(output: &Output, out: &mut O) -> Result<(), Failed>
    ensures all { OnOk result (O.told out.new ≡ append_known (O.told out.old) (output_text output.now)) }
    ensures front { OnErr result (GrowsByFront (O.told out.old) (O.told out.new) (output_text output.now)) }
    ensures cause { CountsPut (O.faults out.old) (O.faults out.new) result }
{
    let mut staged = Staged::new(out);
    put_output(output, &mut staged)?;
    staged.finish()
}

fn put_output<K: Sink>(output: &Output, out: &mut K) -> Result<(), Failed>
    ensures { Puts K.told K.faults K.settled K.lenders out.old out.new (output_text output.now) result }
{
    match output {
        Output::Package(nodes) => write_nodes(nodes, out),
        Output::Count(count) => write_sound(*count, out),
        Output::Journal { document, book } => book.write(&document.digest, document.count, out),
        Output::Listing(text) => put_piece(text, out),
        Output::Summary(summary) => summary.write(out),
    }
}

fn write_sound<K: Sink>(count: u32, out: &mut K) -> Result<(), Failed>
    ensures { Puts K.told K.faults K.settled K.lenders out.old out.new (sound_text count) result }
{
    let mut buffer = Buffer::new();
    let count = buffer.format(count);
    put_pieces(
        &[b"sound ".as_slice(), count.as_bytes(), b" revisions\n"],
        out,
    )
}
