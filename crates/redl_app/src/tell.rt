//! How the program tells a text of itself.

ghost use Rattle.std.specs.Prelude.{◌≡◌, ◌⊎◌, []};
ghost use Rattle.std.specs.Io.KnownBytes.{append_known};
ghost use Rattle.redl_io.specs.Faults.{Rose};
ghost use Rattle.redl_io.specs.Sink.{GrowsByFront};
ghost use Rattle.redl_lines.specs.Ends.{Tells};
ghost use Rattle.redl_lines.specs.Lines.{unwritten_line};

use redl_io::Sink;
use redl_lines::{CallEnd, End, Remarks, Status, tell};
use std::alloc::Global;

/// Writes a text that the program tells of itself, and gives the status that the program ends with.
pub fn tell_text<O: Sink, E: Sink>(alloc: Global, text: &str, out: &mut O, err: &mut E) -> Status
    ensures status { (result ≡ Status.Done) ⊎ (result ≡ Status.WriteFault) }
    ensures all { result ≡ Status.Done → O.told out.new ≡ append_known (O.told out.old) text.now }
    ensures front { result ≡ Status.WriteFault → GrowsByFront (O.told out.old) (O.told out.new) text.now }
    ensures cause { result ≡ Status.WriteFault → Rose (O.faults out.old) (O.faults out.new) }
    ensures stands { result ≡ Status.Done → O.faults out.new ≡ O.faults out.old }
    ensures silent { result ≡ Status.Done → Tells E.told E.faults err.old err.new [] }
    ensures lines { result ≡ Status.WriteFault → Tells E.told E.faults err.old err.new unwritten_line }
{
    let remarks = Remarks::none(alloc);
    let end = match out.put(text.as_bytes()) {
        Ok(()) => CallEnd::Command(End::Written(remarks)),
        Err(_) => CallEnd::Command(End::Unwritten(remarks)),
    };
    tell(&end, err);
    end.status()
}
