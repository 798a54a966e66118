//! What holds of every outcome of a call, and of the readers that define it.

ghost use Rattle.std.specs.Prelude.{◌≡◌, ◌≤◌, ℕ, List};
ghost use Rattle.redl_outcome.specs.AnyOrder.{OrderDoesNotCount, OrderOfSittings};
ghost use Rattle.redl_outcome.specs.Brought.{Brought};
ghost use Rattle.redl_outcome.specs.Left.{LeavesSound};
ghost use Rattle.redl_outcome.specs.Outcome.{outcome};
ghost use Rattle.redl_outcome.specs.Sittings.{DifferExactly, SittingsAgree};
ghost use Rattle.redl_inputs.specs.Readers.{Reader, IsReader};
ghost use Rattle.redl_io.specs.Shelf.{Files};
ghost use Rattle.redl_lines.specs.Lines.{sample_paragraphs};
ghost use Rattle.redl_words.specs.Commands.{IsCommand, sample};

use redl_lines::Status;

/// There is a reader: each text has a body or none, and a journal or none.
pub fn a_reader()
    ensures { (reader : Reader) × IsReader reader }
{}

/// A call comes to one outcome, by whichever reader it is told.
pub fn one_outcome()
    ensures { (reader other : Reader) → IsReader reader → IsReader other → (words : List (List ℕ)) (files : Files) (brought : Brought)
        → outcome reader words files brought ≡ outcome other words files brought }
{}

/// What `settle` and `write` put out is the text of a sound package with exactly the text that survives, and keeps what is
/// locked.
///
/// Where such a call has the status 0 or 1, its bytes are the text of what is left of its package under its says: the text
/// pieces of the stories are those of the original that survive, in their order, and all nine rules of structure hold
/// again. An element whose revision a lock of the call holds, by what the element itself names, is left as it is. Nothing
/// says that the text reads again as XML: where an element between `]]` and `>` goes, it does not.
pub fn what_is_left_is_sound()
    ensures { (reader : Reader) (words : List (List ℕ)) (files : Files) (brought : Brought) → LeavesSound reader words files brought }
{}

/// One journal of two sittings, where it is written, is that of the joined book, and both sittings come to the same text.
pub fn sittings_agree()
    ensures { (reader : Reader) (words : List (List ℕ)) (files : Files) (brought : Brought) → SittingsAgree reader words files brought }
{}

/// A call for one journal of two sittings has the status 12 exactly where no other refusal holds and the sittings come to different
/// texts.
pub fn sittings_differ()
    ensures { (reader : Reader) (words : List (List ℕ)) (files : Files) (brought : Brought) → DifferExactly reader words files brought }
{}

/// A call for a sample that is within its limit comes to its summary: the sample is a sound package.
pub fn samples_are_written()
    ensures { (reader : Reader) → IsReader reader → (words : List (List ℕ)) (files : Files) (brought : Brought) (number : ℕ)
        → IsCommand words (sample number) → number ≤ sample_paragraphs → (outcome reader words files brought).status ≡ Status.Done }
{}

/// The order of the journals and repeats do not count.
///
/// Where two calls of a command differ in the order and the repeats of their journals alone, and both have the status 0 or 1,
/// they have the same status, bytes and lines. A repeat counts only for the limit on the bytes of all journals.
pub fn order_does_not_count()
    ensures { (reader : Reader) (files : Files) (brought : Brought) → OrderDoesNotCount reader files brought }
{}

/// The same of one journal of two sittings: neither the order of the journals of the first package nor that of those of the second one
/// counts, and repeats do not.
pub fn order_of_sittings_does_not_count()
    ensures { (reader : Reader) (files : Files) (brought : Brought) → OrderOfSittings reader files brought }
{}
