//! The answer to words: what they ask of the program itself, or of files.

ghost use Rattle.std.specs.Prelude.{◌≡◌, ◌≢◌, ◌⊎◌, IfOk, IfErr, IfSome, All, IsUtf8, None};
ghost use Rattle.redl_outcome.specs.Answers.{Writes};
ghost use Rattle.redl_outcome.specs.Words.{words_failure};
ghost use Rattle.redl_io.specs.Faults.{Rose};
ghost use Rattle.redl_lines.specs.Ends.{Tells};
ghost use Rattle.redl_lines.specs.Failures.{failure_status};
ghost use Rattle.redl_lines.specs.Lines.{failure_line};
ghost use Rattle.redl_app.specs.Answers.{Answers};
ghost use Rattle.redl_app.specs.Formats.{program_brings};
ghost use Rattle.redl_app.specs.Own.{own_of, own_lines, text_of};

use crate::call::run_words;
use crate::own::{Program, own_of};
use crate::tell::tell_text;
use crate::top::refuse_words;
use redl_io::{Shelf, Sink, Text};
use redl_lines::Status;
use redl_words::WordsError;
use std::alloc::Global;

/// Answers a call with these words, or tells why they could not be read.
///
/// Words that ask for the program's help or version alone get this text on `out`. For all others it is `run_words`.
pub fn answer<F: Shelf, O: Sink, E: Sink>(
    alloc: Global,
    words: &Result<Vec<Text>, WordsError>,
    program: &Program<'_>,
    shelf: &mut F,
    out: &mut O,
    err: &mut E,
) -> Status
    requires utf8 { IfOk words.now (λ words. All IsUtf8 words.items) }

    // Words that could not be read.
    ensures refused { IfErr words.now (λ error. result ≡ failure_status (words_failure error)) }
    ensures refused_lines { IfErr words.now (λ error. Tells E.told E.faults err.old err.new (failure_line (words_failure error))) }
    ensures refused_alone { IfErr words.now (λ _. (shelf.new ≡ shelf.old) × (out.new ≡ out.old)) }

    // What the program tells of itself.
    ensures own { IfOk words.now (λ words. IfSome (own_of words.items) (λ _. (result ≡ Status.Done) ⊎ (result ≡ Status.WriteFault))) }
    ensures own_text { IfOk words.now (λ words. IfSome (own_of words.items) (λ own. Writes O.told out.old out.new result (text_of program.now.texts own words.items))) }
    ensures own_lines { IfOk words.now (λ words. IfSome (own_of words.items) (λ _. Tells E.told E.faults err.old err.new (own_lines result))) }
    ensures own_alone { IfOk words.now (λ words. IfSome (own_of words.items) (λ _. shelf.new ≡ shelf.old)) }

    // What is asked of files.
    ensures answers { IfOk words.now (λ words. own_of words.items ≡ None → Answers F.told F.faults F.asked shelf.old shelf.new O.told O.faults out.old out.new
        E.told E.faults err.old err.new words.items (program_brings program.now.skin) result) }

    // Over all words.
    ensures write { result ≡ Status.WriteFault → Rose (O.faults out.old) (O.faults out.new) }
    ensures shelf_stands { result ≢ Status.ReadFault → F.faults shelf.new ≡ F.faults shelf.old }
    ensures out_stands { result ≢ Status.WriteFault → O.faults out.new ≡ O.faults out.old }
    ensures same_files { F.told shelf.new ≡ F.told shelf.old }
    ensures untouched { result ≢ Status.Done → result ≢ Status.Refused → result ≢ Status.WriteFault → O.told out.new ≡ O.told out.old }
{
    match words {
        Ok(words) => match own_of(words) {
            Some(own) => tell_text(alloc, program.texts.text_of(own, words), out, err),
            None => run_words(alloc, words, shelf, out, err, &program.skin),
        },
        Err(error) => refuse_words(*error, err),
    }
}
